// References, and characters with their origin, read at a place of a slice, any slice and any place.
// What a reference says is in the crate xml, specs/Sign.antt, and how it is read in the crate readers.
#![tactic(auto)]

pub mod reference; // a reference: one of the five names, or a character's number
pub mod next; // the next character of text, of a CDATA section or of a value
