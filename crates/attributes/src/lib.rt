// No code: this crate is definitions (specs/) and theorems (proofs/) on the attributes of a tag, each by its name and its value made
// normal. The crate `attribute` has the functions that answer so.

#![tactic(auto)]
