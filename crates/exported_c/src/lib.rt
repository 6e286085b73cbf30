// The functions of the library `exported` for callers in C, whose header is host/include/choughbell.h: a slice is passed as a pointer and
// then a length. Each calls the library's function of its name, and states that function's clauses again.
#![tactic(auto)]

ghost use Rattle.std.specs.Prelude.{◌≡◌, length};
ghost use Rattle.document.specs.Judge.{judge_of};
ghost use Rattle.cutter.specs.Answer.{answer_of, bytes_after};
ghost use Rattle.batch.specs.Answer.{batch_of, batch_bytes};
ghost use Rattle.packed.specs.Answer.{pack_answer, pack_bytes, unpack_answer, unpack_bytes};
ghost use Rattle.covers.specs.Answer.{cover_answer};
ghost use Rattle.exported.specs.Numbers.{characters_end, judged_of, numbers_of};
ghost use Rattle.exported.specs.Plain.{three_of};
ghost use Rattle.exported.specs.Batch.{batch_numbers_of};
ghost use Rattle.exported.specs.Packing.{packing_of};
ghost use Rattle.exported.specs.Covers.{covers_numbers};

use exported::{FourNumbers, Numbers};

pub mod mending; // a document that stops half way

// How many bytes at the front are characters that XML allows: all of them, or the offset of the first bad sequence.
#[unsafe(no_mangle)]
pub extern "C" fn choughbell_characters(s: &[u8]) -> usize
    ensures { result ≡ characters_end s.now }
{
    exported::choughbell_characters(s)
}

// The numbers of a document alone.
#[unsafe(no_mangle)]
pub extern "C" fn choughbell_judge(doc: &[u8]) -> Numbers
    ensures { result ≡ judged_of (judge_of doc.now) }
{
    exported::choughbell_judge(doc)
}

// Writes the cut of a document by a list into a buffer, and gives the numbers of the answer.
#[unsafe(no_mangle)]
pub extern "C" fn choughbell_cut(list: &[u8], doc: &[u8], out: &mut [u8]) -> FourNumbers
    ensures value { result ≡ numbers_of (answer_of list.now doc.now (length out.old)) }
    ensures out_after { out.new ≡ bytes_after list.now doc.now out.old }
{
    exported::choughbell_cut(list, doc, out)
}

// The same with a log that the caller lends.
#[unsafe(no_mangle)]
pub extern "C" fn choughbell_cut_with(
    list: &[u8],
    doc: &[u8],
    out: &mut [u8],
    log: &mut [u64],
) -> FourNumbers
    ensures value { result ≡ numbers_of (answer_of list.now doc.now (length out.old)) }
    ensures out_after { out.new ≡ bytes_after list.now doc.now out.old }
{
    exported::choughbell_cut_with(list, doc, out, log)
}

// The cut by the plain engine, and its three numbers.
#[unsafe(no_mangle)]
pub extern "C" fn choughbell_plain(list: &[u8], doc: &[u8], out: &mut [u8]) -> Numbers
    ensures value { result ≡ three_of (answer_of list.now doc.now (length out.old)) }
    ensures out_after { out.new ≡ bytes_after list.now doc.now out.old }
{
    exported::engine::choughbell_plain(list, doc, out)
}

// Writes the result of a batch by a list into a buffer, and gives the numbers of the answer.
#[unsafe(no_mangle)]
pub extern "C" fn choughbell_batch(list: &[u8], batch: &[u8], out: &mut [u8]) -> Numbers
    ensures value { result ≡ batch_numbers_of (batch_of list.now batch.now (length out.old)) }
    ensures out_after { out.new ≡ batch_bytes list.now batch.now out.old }
{
    exported::post::choughbell_batch(list, batch, out)
}

// Whether every path of a narrow list is covered by a path of a wide list, marked if it is.
#[unsafe(no_mangle)]
pub extern "C" fn choughbell_covers(narrow: &[u8], wide: &[u8]) -> Numbers
    ensures { result ≡ covers_numbers (cover_answer narrow.now wide.now) }
{
    exported::covering::choughbell_covers(narrow, wide)
}

// Writes the packed form of a list into a buffer, and gives the numbers of the answer.
#[unsafe(no_mangle)]
pub extern "C" fn choughbell_pack(text: &[u8], out: &mut [u8]) -> Numbers
    ensures value { result ≡ packing_of (pack_answer text.now (length out.old)) }
    ensures out_after { out.new ≡ pack_bytes text.now out.old }
{
    exported::packing::choughbell_pack(text, out)
}

// Writes the text of a packed list into a buffer, and gives the numbers of the answer.
#[unsafe(no_mangle)]
pub extern "C" fn choughbell_unpack(packed: &[u8], out: &mut [u8]) -> Numbers
    ensures value { result ≡ packing_of (unpack_answer packed.now (length out.old)) }
    ensures out_after { out.new ≡ unpack_bytes packed.now out.old }
{
    exported::packing::choughbell_unpack(packed, out)
}
