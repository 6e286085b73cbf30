// Code points: those that XML allows, and the name class of each, over the ranges of the productions.
// What each function means is in specs/ and in the crate xml.
#![tactic(auto)]

pub mod allowed; // the characters that XML allows
pub mod table; // the table of name classes below U+0300
pub mod class; // the name class of a code point
