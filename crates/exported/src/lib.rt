// What callers in Rust and C can call: numbers pass as themselves, a slice as a pointer and then a length. C is given the functions of the
// crate `exported_c`, which call these. An answer of the library is a number here, or three: document 01's "Numbers handed
// back", and 10 for another encoding. A cut has a fourth, document 02's number of name tests. Here the cut, the judgement of a document and
// its characters; the other calls have modules of their own.
#![tactic(auto)]

ghost use Rattle.std.specs.Prelude.{◌≡◌, length};
ghost use Rattle.paths.specs.Answer.{list_number, list_second};
ghost use Rattle.document.specs.Judge.{why_number, document_number, document_second, judge_of};
ghost use Rattle.cutter.specs.Answer.{answer_of, bytes_after, cut_number, cut_second};
ghost use Rattle.exported.specs.Numbers.{characters_end, refusal_of, refused_of, judged_of, numbers_of};

use cutter::answer::Cut;
use document::judge::judge;
use document::{DocumentError, Why};
use paths::ListError;
use refusals::CutError;

pub mod engine; // the plain engine
pub mod post; // a batch
pub mod packing; // the packed list
pub mod covering; // the check of two lists
pub mod mending; // a document that stops half way

// The number, the second and the third.
#[repr(C)]
#[derive(Drop)]
pub struct Numbers {
    pub number: u64,
    pub second: u64,
    pub third: u64,
}

// A number with a second one, and no third.
pub fn refusal(number: u64, second: usize) -> Numbers
    ensures { result ≡ refusal_of number second }
{
    Numbers {
        number,
        second: second as u64,
        third: 0,
    }
}

// The numbers of a refusal of a list.
pub fn list_refusal(e: ListError) -> Numbers
    ensures { result ≡ refusal_of (list_number e) (list_second e) }
{
    match e {
        ListError::TooLong => refusal(1, 0),
        ListError::Malformed(line) => refusal(2, line),
        ListError::TooLarge(line) => refusal(3, line),
    }
}

// The number of a fault in an item.
fn why_number(why: Why) -> u64
    ensures { result ≡ why_number why }
{
    match why {
        Why::Doctype => 6,
        Why::Malformed => 7,
        Why::TooLarge => 8,
    }
}

// The numbers of a refusal of a document.
fn document_refusal(e: DocumentError) -> Numbers
    ensures { result ≡ refusal_of (document_number e) (document_second e) }
{
    match e {
        DocumentError::TooLong => refusal(4, 0),
        DocumentError::OtherEncoding(o) => refusal(10, o),
        DocumentError::NotChar(o) => refusal(5, o),
        DocumentError::At(why, o) => refusal(why_number(why), o),
    }
}

// The numbers of a refusal of a cut, by either engine, and of a table.
pub fn cut_refusal(e: CutError) -> Numbers
    ensures { result ≡ refusal_of (cut_number e) (cut_second e) }
{
    match e {
        CutError::List(list) => list_refusal(list),
        CutError::Document(doc) => document_refusal(doc),
        CutError::Short(needed) => refusal(9, needed),
    }
}

// The number, the second, the third, and a fourth: the name tests tried.
#[repr(C)]
#[derive(Drop)]
pub struct FourNumbers {
    pub number: u64,
    pub second: u64,
    pub third: u64,
    pub fourth: u64,
}

// A number with a second one, no third and no fourth.
fn refused(number: u64, second: usize) -> FourNumbers
    ensures { result ≡ refused_of number second }
{
    FourNumbers {
        number,
        second: second as u64,
        third: 0,
        fourth: 0,
    }
}

// The numbers of an answer.
pub fn numbers_of(a: Result<Cut, CutError>) -> FourNumbers
    ensures { result ≡ numbers_of a }
{
    match a {
        Ok(cut) => FourNumbers {
            number: 0,
            second: cut.length as u64,
            third: cut.selected as u64,
            fourth: cut.tests as u64,
        },
        Err(e) => {
            let told = cut_refusal(e);
            FourNumbers {
                number: told.number,
                second: told.second,
                third: 0,
                fourth: 0,
            }
        }
    }
}

// How many bytes at the front are characters that XML allows: all of them, or the offset of the first bad sequence.
#[unsafe(no_mangle)]
pub extern "C" fn choughbell_characters(s: &[u8]) -> usize
    ensures { result ≡ characters_end s.now }
{
    match chars::whole::check(s) {
        Ok(()) => s.len(),
        Err(e) => e.valid_up_to,
    }
}

// The numbers of a document alone, by any list that is sound and in any room that suffices: 4 to 8 or 10, or 0 and no length.
#[unsafe(no_mangle)]
pub extern "C" fn choughbell_judge(doc: &[u8]) -> Numbers
    ensures { result ≡ judged_of (judge_of doc.now) }
{
    match judge(doc) {
        Ok(()) => refusal(0, 0),
        Err(e) => document_refusal(e),
    }
}

// Writes the cut of a document by a list into a buffer, and gives the numbers of the answer.
#[unsafe(no_mangle)]
pub extern "C" fn choughbell_cut(list: &[u8], doc: &[u8], out: &mut [u8]) -> FourNumbers
    ensures value { result ≡ numbers_of (answer_of list.now doc.now (length out.old)) }
    ensures out_after { out.new ≡ bytes_after list.now doc.now out.old }
{
    let a = cutter::cut(list, doc, out);
    numbers_of(a)
}

// The same with a log that the caller lends: room for notes, of any length and whatever stands in it. Only the time depends on it, and what
// stands in it afterwards says nothing.
#[unsafe(no_mangle)]
pub extern "C" fn choughbell_cut_with(
    list: &[u8],
    doc: &[u8],
    out: &mut [u8],
    log: &mut [u64],
) -> FourNumbers
    ensures value { result ≡ numbers_of (answer_of list.now doc.now (length out.old)) }
    ensures out_after { out.new ≡ bytes_after list.now doc.now out.old }
{
    let a = cutter::cut_with(list, doc, out, log);
    numbers_of(a)
}
