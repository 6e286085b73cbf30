// No code: this crate is worked examples (proofs/) of what the path list, the matcher, the items and the document answer, which antt
// computes. They stand apart from the code, so that a wrong program is tried without them.

#![tactic(auto)]
