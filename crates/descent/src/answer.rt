// What is answered: a cut, or why there is none, by the crate refusals.

// A cut that is written: its length and the number of elements selected.
#[derive(Clone, Copy, Debug, PartialEq, Eq)]
pub struct Cut {
    pub length: usize,
    pub selected: usize,
}
