// No code: this crate says what it is for a contract to leave one answer. The crates above it show it of each public function, of the
// contract that the toolchain makes of the source (proofs/OneAnswer there).

#![tactic(auto)]
