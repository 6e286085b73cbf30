// Items as they mostly stand, read by what is known of the elements around. What stands otherwise is left to the readers of items.
#![tactic(auto)]

pub mod end; // an end tag
