// The cuts of many documents by one list, in one call: from a list, a batch and a buffer to an answer and, under 0, the result, which has
// the layout of a batch too. The list is read and compiled once, by `compiled::compile::read`. What is answered and what stands in the
// buffer afterwards is in specs/Answer.antt.
//
//     list      judged and compiled                           refused: 1 2 3
//     batch     its layout, judged whole                      refused: 11
//     buffer    is there room for the result                  refused: 9
//               each document is cut into its place; one      0
//               that is refused leaves the length 0
//
// Where the buffer has twice the bytes of the batch there is room, as is proved, and each document is gone through once; else the result is
// measured first, document by document.
#![tactic(auto)]

ghost use Rattle.std.specs.Prelude.{◌≡◌, ◌≤◌, length, Ok};
ghost use Rattle.matcher.specs.Fit.{Serves};
ghost use Rattle.bundle.specs.Batch.{layout_of};
ghost use Rattle.batch.specs.Answer.{result_of, batch_by, batch_bytes_by, batch_of, batch_bytes};
ghost use Rattle.batch.specs.declared.BatchError.TheVariants as errors;

use bundle::{LayoutError, judge};
use compiled::Compiled;
use compiled::compile::read;
use paths::ListError;
use walk::{fill, measure};

mod entry; // one document
mod walk; // all of them

// A result that is written: its length and the number of elements selected in all documents.
#[derive(Clone, Copy, Debug, PartialEq, Eq)]
pub struct Batch {
    pub length: usize,
    pub selected: usize,
}

// Why no result is written: the list is refused; the version byte or a length of the batch, at a place, is at fault; the buffer is too
// short for the result, which has this length.
#[derive(Clone, Copy, Debug, PartialEq, Eq)]
pub enum BatchError {
    List(ListError),
    BadBatch(usize),
    Short(usize),
}

impl From<ListError> for BatchError {
    ghost from_gives = { λ e r. r ≡ errors.List e };

    fn from(e: ListError) -> BatchError {
        BatchError::List(e)
    }
}

// The length of the log that a call has of its own, for all documents: 32 KiB of stack.
const NOTES: usize = 4096;

// By the tables of a sound list, a batch whose layout is sound, in a buffer with room for the result.
fn filled(
    list: &[u8],
    t: &Compiled,
    batch: &[u8],
    out: &mut [u8],
    log: &mut [u64],
) -> Result<Batch, BatchError>
    requires { Serves list.now t.now × (layout_of batch.now ≡ Ok tt)
        × (length (result_of list.now batch.now) ≤ length out.old) }
    ensures value { result ≡ batch_by list.now batch.now (length out.old) }
    ensures out_after { out.new ≡ batch_bytes_by list.now batch.now out.old }
{
    let part = fill(list, t, batch, out, log);
    Ok(Batch {
        length: part.length,
        selected: part.selected,
    })
}

// The same in any buffer: the result is measured where the room may be short.
fn written(list: &[u8], t: &Compiled, batch: &[u8], out: &mut [u8]) -> Result<Batch, BatchError>
    requires { Serves list.now t.now × (layout_of batch.now ≡ Ok tt) }
    ensures value { result ≡ batch_by list.now batch.now (length out.old) }
    ensures out_after { out.new ≡ batch_bytes_by list.now batch.now out.old }
{
    let mut log = [0u64; NOTES];
    if batch.len() <= out.len() / 2 {
        return filled(list, t, batch, out, &mut log);
    }
    let needed = measure(list, t, batch, &mut log);
    if out.len() < needed {
        return Err(BatchError::Short(needed));
    }
    filled(list, t, batch, out, &mut log)
}

// By the tables of a sound list, any batch and any buffer.
pub fn cut_all_by(
    list: &[u8],
    t: &Compiled,
    batch: &[u8],
    out: &mut [u8],
) -> Result<Batch, BatchError>
    requires { Serves list.now t.now }
    ensures value { result ≡ batch_by list.now batch.now (length out.old) }
    ensures out_after { out.new ≡ batch_bytes_by list.now batch.now out.old }
{
    match judge(batch) {
        Ok(()) => written(list, t, batch, out),
        Err(LayoutError { at }) => Err(BatchError::BadBatch(at)),
    }
}

// Any list, any batch and any buffer. Only under 0 is a byte of the buffer changed, and then none after the result.
pub fn cut_all(list: &[u8], batch: &[u8], out: &mut [u8]) -> Result<Batch, BatchError>
    ensures value { result ≡ batch_of list.now batch.now (length out.old) }
    ensures out_after { out.new ≡ batch_bytes list.now batch.now out.old }
{
    let mut t = [0u16; compiled::layout::LENGTH];
    read(list, &mut t)?;
    cut_all_by(list, &t, batch, out)
}
