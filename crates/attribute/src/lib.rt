// The attributes of a tag, on any slice. What they are is in the crate `attributes`; values are held against a text in the crate `normal`.
#![tactic(auto)]

pub mod has; // whether one with a given name and value is among them
