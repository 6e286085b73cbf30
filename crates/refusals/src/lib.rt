// Why no cut is written, for both engines and for rows: a list or a document is refused, or the buffer is too short. The numbers of each
// are in the crate cutter, specs/Answer.antt.
#![tactic(auto)]

ghost use Rattle.std.specs.Prelude.{◌≡◌};
ghost use Rattle.refusals.specs.Fault.{fault_of};
ghost use Rattle.refusals.specs.declared.CutError.TheVariants as errors;

use document::{DocumentError, ItemError, Why};
use paths::ListError;

// Why no cut is written: the list is refused; the document is; the buffer is too short for the cut, which has this length.
#[derive(Clone, Copy, Debug, PartialEq, Eq)]
pub enum CutError {
    List(ListError),
    Document(DocumentError),
    Short(usize),
}

impl From<ListError> for CutError {
    ghost from_gives = { λ e r. r ≡ errors.List e };

    fn from(e: ListError) -> CutError {
        CutError::List(e)
    }
}

impl From<DocumentError> for CutError {
    ghost from_gives = { λ e r. r ≡ errors.Document e };

    fn from(e: DocumentError) -> CutError {
        CutError::Document(e)
    }
}

// An item at a place is at fault: the document is refused.
pub fn fault_of(why: Why, at: usize) -> CutError
    ensures { result ≡ fault_of why at }
{
    CutError::Document(DocumentError::At(why, at))
}

impl From<ItemError> for CutError {
    ghost from_gives = { λ e r. r ≡ fault_of e.why e.at };

    fn from(e: ItemError) -> CutError {
        fault_of(e.why, e.at)
    }
}
