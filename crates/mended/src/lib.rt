// No code: this crate is theorems. What document 02 promises of mending,
// by the definitions of `mend` and what `demands` shows of documents.

#![tactic(auto)]
