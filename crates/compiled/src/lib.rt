// A sound path list, compiled for matching: its tables one behind the other in one array, every entry of which is a function of the paths,
// as specs/Compiled.antt has them. A list is read by `compile::read`; a name is looked up by `lookup::find::find`, and what it passes
// stands in its row.
#![tactic(auto)]

pub mod compile; // a list, judged and compiled
pub mod layout; // where each table begins
mod kinds; // what the kinds of step share
mod rows; // the rows while they are made
mod build; // the tables, step by step

// All tables of a list; `layout` says where each begins.
pub type Compiled = [u16; layout::LENGTH];
