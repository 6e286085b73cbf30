// XML 1.0's grammar as definitions, and UTF-8. No code: specs/ has what is meant, proofs/ what follows from it.
// The order to read specs/ in is Range, Utf8, Notation, Productions, Language; Character and Computes are for computing.

#![tactic(auto)]
