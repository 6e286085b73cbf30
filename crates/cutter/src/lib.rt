// The cut of a document by a list: one call, from a list, a document and a buffer to an answer and, under 0, the cut. It is made of two:
// the list is read and compiled, by `compiled::compile::read`, and the document is cut by its tables, by `cut_by`. What is answered and
// what stands in the buffer afterwards is in specs/Answer.antt.
//
//     list      judged and compiled                         refused: 1 2 3
//     document  its length, the encoding that it declares,
//               then its characters                         refused: 4 10 5
//               a pass over its items, which measures       refused: 6 7 8
//               and notes what is written
//     buffer    is there room for the cut                   refused: 9
//               the cut is laid from the notes, or where    0
//               the log has no room for all, the same
//               pass writes
//
// The log is room for notes. Only the time depends on it: `cut` and `cut_by` have a short one of their own, and `cut_with` and
// `cut_by_with` take one from the caller, of any length.
#![tactic(auto)]

ghost use Rattle.std.specs.Prelude.{◌≡◌, false, length, drop, ◌≤◌, Ok};
ghost use Rattle.chars.specs.Check.{check_of};
ghost use Rattle.readers.specs.Named.{other_encoding};
ghost use Rattle.document.specs.Judge.{start_of};
ghost use Rattle.matcher.specs.Fit.{Serves};
ghost use Rattle.cutter.specs.Answer.{answer_by, bytes_by, answer_of, bytes_after};

use crate::answer::Cut;
use chars::whole::check;
use compiled::compile::read;
use compiled::{Compiled, layout};
use document::judge::start_of;
use document::{DocumentError, Open};
use instructions::declaration::names_other;
use notes::replay::replay;
use passes::pass;
use points::class::Classes;
use refusals::CutError;

pub mod answer; // what is answered

// The length of the log that a call has of its own: 32 KiB of stack. To make it takes time, which a short document would feel.
const NOTES: usize = 4096;

// How many notes a log of a length is used for.
fn used(length: usize) -> usize
    ensures { (result ≤ length) × (result ≤ 16777216) }
{
    if length < 16777216 {
        return length;
    }
    16777216
}

// By the tables of a sound list, a document of characters that names no other encoding: measured and noted, and written where there is
// room.
fn written(
    list: &[u8],
    t: &Compiled,
    doc: &[u8],
    out: &mut [u8],
    log: &mut [u64],
) -> Result<Cut, CutError>
    requires { Serves list.now t.now × (length doc.now ≤ 16777216)
        × (other_encoding (drop (start_of doc.now) doc.now) ≡ false) × (check_of doc.now ≡ Ok tt) × (length log.old ≤ 16777216) }
    ensures value { result ≡ answer_by list.now doc.now (length out.old) }
    ensures out_after { out.new ≡ bytes_by list.now doc.now out.old }
{
    let table = Classes::new();
    let mut scratch = [0u8; 1];
    let measured = pass(&table, list, t, true, doc, &mut scratch, log)?;
    let length = measured.length;
    if out.len() < length {
        return Err(CutError::Short(length));
    }
    let noted = measured.noted;
    let cut = Cut {
        length,
        selected: measured.selected,
        tests: measured.tests,
    };
    if noted <= log.len() {
        replay(doc, log, noted, out);
        return Ok(cut);
    }
    // The same items come to the same.
    let _ = pass(&table, list, t, false, doc, out, log);
    Ok(cut)
}

// By the tables of a sound list, any document, any buffer and any log: for callers that read a list once and cut many documents by it.
pub fn cut_by_with(
    list: &[u8],
    t: &Compiled,
    doc: &[u8],
    out: &mut [u8],
    log: &mut [u64],
) -> Result<Cut, CutError>
    requires { Serves list.now t.now }
    ensures value { result ≡ answer_by list.now doc.now (length out.old) }
    ensures out_after { out.new ≡ bytes_by list.now doc.now out.old }
{
    if doc.len() > Open::BYTES {
        return Err(CutError::from(DocumentError::TooLong));
    }
    let start = start_of(doc);
    if names_other(doc, start) {
        return Err(CutError::from(DocumentError::OtherEncoding(start)));
    }
    match check(doc) {
        Ok(()) => {
            let n = used(log.len());
            written(list, t, doc, out, &mut log[0..n])
        }
        Err(e) => Err(CutError::from(DocumentError::NotChar(e.valid_up_to))),
    }
}

// The same in a log of its own.
pub fn cut_by(list: &[u8], t: &Compiled, doc: &[u8], out: &mut [u8]) -> Result<Cut, CutError>
    requires { Serves list.now t.now }
    ensures value { result ≡ answer_by list.now doc.now (length out.old) }
    ensures out_after { out.new ≡ bytes_by list.now doc.now out.old }
{
    let mut log = [0u64; NOTES];
    cut_by_with(list, t, doc, out, &mut log)
}

// Any list, any document, any buffer and any log. Only under 0 is a byte of the buffer changed, and then none after the cut. What stands in
// the log afterwards says nothing.
pub fn cut_with(list: &[u8], doc: &[u8], out: &mut [u8], log: &mut [u64]) -> Result<Cut, CutError>
    ensures value { result ≡ answer_of list.now doc.now (length out.old) }
    ensures out_after { out.new ≡ bytes_after list.now doc.now out.old }
{
    let mut t = [0u16; layout::LENGTH];
    read(list, &mut t)?;
    cut_by_with(list, &t, doc, out, log)
}

// The same in a log of its own.
pub fn cut(list: &[u8], doc: &[u8], out: &mut [u8]) -> Result<Cut, CutError>
    ensures value { result ≡ answer_of list.now doc.now (length out.old) }
    ensures out_after { out.new ≡ bytes_after list.now doc.now out.old }
{
    let mut log = [0u64; NOTES];
    cut_with(list, doc, out, &mut log)
}
