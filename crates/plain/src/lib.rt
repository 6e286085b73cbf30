// Items that end at a text, read at a place of any slice: comments, CDATA sections, text; over the scans of the crate scans. What each
// reads is defined in the crate readers, specs/Plain.antt.
#![tactic(auto)]

mod between; // from a text to a text
pub mod comment; // comments
pub mod section; // CDATA sections
pub mod text; // text between markup
