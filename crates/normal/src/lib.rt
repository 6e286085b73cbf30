// Attribute values made normal, on any slice. What a value is once it is made normal is in the crate `attributes`.
#![tactic(auto)]

pub mod value; // whether a value is a given text
