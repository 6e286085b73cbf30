// The item at a place of a document: its kind is told by its first bytes, and it is read by the reader for that kind.
// Any slice and any place, bytes that are no characters too. What an item means is in specs/ and in the crates tags and readers.
#![tactic(auto)]

pub mod told; // the item at a place
