// Words: eight bytes of a slice as one number, so that eight are looked at in one step: the part of the scan to a mark, and of the reading
// of names, that is about speed. What the functions mean is in specs/Word.antt.
#![tactic(auto)]

pub mod mask; // which bytes of a word are one of three, and which are no name characters
pub mod word; // a word of a slice, and its first byte that is not 0
