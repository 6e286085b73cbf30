// What is answered: a cut; why there is none is in the crate refusals. The numbers, and what stands in the buffer afterwards, are in
// specs/Answer.antt.

// A cut that is written: its length, the number of elements selected and that of the name tests tried.
#[derive(Clone, Copy, Debug, PartialEq, Eq)]
pub struct Cut {
    pub length: usize,
    pub selected: usize,
    pub tests: usize,
}
