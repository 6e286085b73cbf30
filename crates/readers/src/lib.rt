// No code: this crate is definitions (specs/) and theorems (proofs/) on what stands at the front of some bytes, item by item. The crates
// above it have the functions that answer so.

#![tactic(auto)]
