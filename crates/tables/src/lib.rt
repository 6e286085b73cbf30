// No code: this crate is theorems. What a table for a spreadsheet is, in document 02's words and the grammar's, and that the table which
// the crate rows defines by computing is it, and no other is.

#![tactic(auto)]
