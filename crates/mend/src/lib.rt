// Mending a document that stops half way: what is whole before the first fault is kept, and the end tags that are missing are added, the
// innermost first. One call, from a document and a buffer to an answer and, under 0, the mended document. What is answered and what stands
// in the buffer afterwards is in specs/Answer.antt.
//
//     document  its length, the encoding that it declares   refused: 4 10
//               cut at the first sequence that is no
//               character
//               item by item up to the first fault          refused: 12, where no root tag is whole
//     buffer    is there room                               refused: 9
//               the bytes that are kept, the end tags       0
#![tactic(auto)]

ghost use Rattle.std.specs.Prelude.{◌≡◌, ◌≤◌, length, take};
ghost use Rattle.mend.specs.Kept.{readable};
ghost use Rattle.mend.specs.Answer.{answer_of, bytes_after};

use chars::whole::check;
use document::Open;
use document::judge::start_of;
use instructions::declaration::names_other;

mod laid; // the mended document, laid into a buffer
mod kept; // item by item up to the first fault

// A document that is mended: the length written, the bytes kept and the end tags added.
#[derive(Clone, Copy, Debug, PartialEq, Eq)]
pub struct Mended {
    pub length: usize,
    pub kept: usize,
    pub added: usize,
}

// Why a document is not mended: it is too long; its declaration, at a place, names another encoding than UTF-8; no root tag is kept, and
// the first fault is at a place; the buffer is too short for the mended document, which has this length.
#[derive(Clone, Copy, Debug, PartialEq, Eq)]
pub enum MendError {
    TooLong,
    OtherEncoding(usize),
    NoRoot(usize),
    Short(usize),
}

// How many bytes at the front are characters: the document is cut there.
fn readable_end(doc: &[u8]) -> usize
    ensures { (result ≤ length doc.now) × (take result doc.now ≡ readable doc.now) }
{
    match check(doc) {
        Ok(()) => doc.len(),
        Err(e) => e.valid_up_to,
    }
}

// Any document and any buffer. Only under 0 is a byte of the buffer changed, and then none after the mended document.
pub fn mend(doc: &[u8], out: &mut [u8]) -> Result<Mended, MendError>
    ensures value { result ≡ answer_of doc.now (length out.old) }
    ensures out_after { out.new ≡ bytes_after doc.now out.old }
{
    if doc.len() > Open::BYTES {
        return Err(MendError::TooLong);
    }
    let start = start_of(doc);
    if names_other(doc, start) {
        return Err(MendError::OtherEncoding(start));
    }
    let end = readable_end(doc);
    kept::mended(&doc[0..end], out)
}
