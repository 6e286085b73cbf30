// No code: this crate is theorems, the request's demands in its own words. Each stands in a file of its own in proofs/, under the sentence
// that it shows. They are about `answer_of` and `bytes_after`, and so about `cut`, whose contract is these two.

#![tactic(auto)]
