// A second engine, to be read first: it cuts a document by a list and goes down the tree as one would by hand. It gives the numbers, bytes
// and counts of `cutter::cut`, less the name tests. It shares with it the readers of characters, of the list and of items, where an item
// may stand, and how bytes are laid into a buffer; and nothing of matching, of compiled lists, of what is written at an item and of the
// pass over items. Why there is no cut is said in the same words, those of the crate refusals.
//
//     <g><p><v k="1"/>t</p></g>          content of the document     element g
//                                          content of g                element p
//                                            content of p                element v, which is empty
//                                                                        the text t, which is dropped
//
// `tree` has the two functions that call each other: an element reads its content, and content reads the elements inside it. `select` tries
// the places of every path at an element, from the top: nothing is kept from one element to the next but the names of those around it.
// `ink` is what is written of an element. A document is gone through twice: into one byte, which measures, and into the buffer.
#![tactic(auto)]

ghost use Rattle.std.specs.Prelude.{◌≡◌, false, ◌≤◌, length, drop, Ok};
ghost use Rattle.chars.specs.Check.{check_of};
ghost use Rattle.readers.specs.Named.{other_encoding};
ghost use Rattle.paths.specs.Judge.{list_answer};
ghost use Rattle.document.specs.Judge.{start_of};
ghost use Rattle.cutter.specs.Answer.{answer_by, bytes_by, answer_of, bytes_after};
ghost use Rattle.descent.specs.Answer.{without};

use crate::answer::Cut;
use crate::tree::whole;
use chars::whole::check;
use document::judge::start_of;
use document::{DocumentError, Open};
use instructions::declaration::names_other;
use paths::answer;
use points::class::Classes;
use refusals::CutError;

pub mod answer; // what is answered
mod select; // what a list says of an element
mod ink; // what is written of it
mod tree; // the two functions in a cycle

// By a sound list, a document of characters that names no other encoding: measured, and written where there is room.
fn written(list: &[u8], doc: &[u8], out: &mut [u8]) -> Result<Cut, CutError>
    requires { (list_answer list.now ≡ Ok tt) × (length doc.now ≤ 16777216)
        × (other_encoding (drop (start_of doc.now) doc.now) ≡ false) × (check_of doc.now ≡ Ok tt) }
    ensures value { result ≡ without (answer_by list.now doc.now (length out.old)) }
    ensures out_after { out.new ≡ bytes_by list.now doc.now out.old }
{
    let table = Classes::new();
    let mut scratch = [0u8; 1];
    // 6, 7, 8: "offset of the item (or the document's length ..)"
    let measured = whole(&table, list, doc, &mut scratch)?;
    let length = measured.run.len;
    // 9: "output shorter than the cut", and the whole output stays
    if out.len() < length {
        return Err(CutError::Short(length));
    }
    // The same items come to the same.
    let _ = whole(&table, list, doc, out);
    Ok(Cut {
        length,
        selected: measured.run.count,
    })
}

// By a sound list, any document: "the numbers apply in the order .. 4; 5; 6 to 8 by item; 9", and 10 between 4 and 5.
fn cut_by(list: &[u8], doc: &[u8], out: &mut [u8]) -> Result<Cut, CutError>
    requires { list_answer list.now ≡ Ok tt }
    ensures value { result ≡ without (answer_by list.now doc.now (length out.old)) }
    ensures out_after { out.new ≡ bytes_by list.now doc.now out.old }
{
    // 4: "document too long"
    if doc.len() > Open::BYTES {
        return Err(CutError::from(DocumentError::TooLong));
    }
    // 10: the declaration, behind the three front bytes where they stand, names another encoding
    let start = start_of(doc);
    if names_other(doc, start) {
        return Err(CutError::from(DocumentError::OtherEncoding(start)));
    }
    // 5: "not UTF-8, or not a Char, anywhere"
    match check(doc) {
        Ok(()) => written(list, doc, out),
        Err(e) => Err(CutError::from(DocumentError::NotChar(e.valid_up_to))),
    }
}

// Any list, any document and any buffer. Only under 0 is a byte of the buffer changed, and then none after the cut.
pub fn cut(list: &[u8], doc: &[u8], out: &mut [u8]) -> Result<Cut, CutError>
    ensures value { result ≡ without (answer_of list.now doc.now (length out.old)) }
    ensures out_after { out.new ≡ bytes_after list.now doc.now out.old }
{
    // 1 to 3: "the first line with a fault decides"
    answer(list)?;
    cut_by(list, doc, out)
}
