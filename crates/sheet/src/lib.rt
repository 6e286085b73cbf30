// A table of a document by a list: one call, from a list, a document and a buffer to an answer and, under 0, the table. What is answered
// and what stands in the buffer afterwards is in specs/Answer.antt; what a record is, in the crate rows.
//
//     list      judged and compiled                         refused: 1 2 3
//     document  its length, the encoding that it declares,
//               then its characters                         refused: 4 10 5
//               a pass over its items, which measures       refused: 6 7 8
//     buffer    is there room for the table                 refused: 9
//               the same pass writes                        0
//
// A record stands at its start tag, so a pass lays it there, and its text is read ahead. A table may be far longer than its document: its
// length is counted in 64 bits.
#![tactic(auto)]

ghost use Rattle.std.specs.Prelude.{◌≡◌, false, ◌+◌, ◌≤◌, ◌<◌, length, drop, Ok};
ghost use Rattle.chars.specs.Check.{check_of};
ghost use Rattle.readers.specs.Named.{other_encoding};
ghost use Rattle.document.specs.Judge.{start_of};
ghost use Rattle.document.specs.Levels.{names_of};
ghost use Rattle.matcher.specs.Fit.{Serves};
ghost use Rattle.trees.specs.Cut.{is_selected};
ghost use Rattle.rows.specs.Laid.{PlainNames, element_text};
ghost use Rattle.sheet.specs.Answer.{answer_by, bytes_by, answer_of, bytes_after};
ghost use Rattle.sheet.specs.Passed.{Started, Passed};

use chars::whole::check;
use compiled::compile::read;
use compiled::{Compiled, layout};
use document::judge::start_of;
use document::place::{end_of, keep};
use document::{DocumentError, ItemError, Open, Placement};
use instructions::declaration::names_other;
use matcher::Verdict;
use matcher::fit::row_of;
use matcher::state::MatchState;
use passes::{judged, next_item};
use points::class::Classes;
use recall::{Known, slot_of};
use refusals::CutError;
use rows::row::{lay_header, lay_record};
use tags::Item;
use tests::any;

// A table that is written: its length and the number of elements selected.
#[derive(Clone, Copy, Debug, PartialEq, Eq)]
pub struct Table {
    pub length: usize,
    pub selected: usize,
}

// What is laid so far: the place after it, and the number of elements selected.
#[derive(Drop)]
struct Run {
    to: usize,
    count: usize,
}

// "The mark # changes nothing here": whether an element has a record.
fn is_selected(verdict: Verdict) -> bool
    ensures { result ≡ is_selected verdict }
{
    match verdict {
        Verdict::Unselected => false,
        Verdict::Selected => true,
        Verdict::Marked => true,
    }
}

// A start tag at a level, whose own name is kept there and which ends at a place: its record, where a path selects its element.
fn start(
    table: &Classes,
    doc: &[u8],
    starts: &[usize; Open::LEVELS],
    lens: &[usize; Open::LEVELS],
    level: usize,
    verdict: Verdict,
    end: usize,
    empty: bool,
    out: &mut [u8],
    run: Run,
) -> Run
    requires { (length doc.now ≤ 16777216) × (end ≤ length doc.now)
        × PlainNames doc.now starts.now lens.now (level + 1) × (run.to < 1152921504606846976) × (run.count < 16777216) }
    ensures { Started verdict (names_of doc.now starts.now lens.now (level + 1))
        (element_text empty doc.now end) out.old run result out.new }
{
    if is_selected(verdict) {
        let to = lay_record(table, doc, starts, lens, level + 1, end, empty, out, run.to);
        return Run {
            to,
            count: run.count + 1,
        };
    }
    run
}

// A pass over the items by the tables of a sound list: the header, and at each start tag the record of its element. Into one byte it
// measures. States, names and what is known of elements are kept as in a pass that cuts (the crate passes).
fn pass(
    table: &Classes,
    list: &[u8],
    t: &Compiled,
    doc: &[u8],
    out: &mut [u8],
) -> Result<Table, ItemError>
    requires { (length doc.now ≤ 16777216) × Serves list.now t.now }
    ensures { Passed list.now doc.now out.old result out.new }
{
    let tested = any(t);
    let fresh = MatchState::fresh();
    let mut states = [fresh; Open::LEVELS];
    let nothing = Known::nothing();
    let mut memo = [nothing; Known::KEPT];
    let mut slots = [0usize; Open::LEVELS];
    let mut starts = [0usize; Open::LEVELS];
    let mut lens = [0usize; Open::LEVELS];
    let mut opened = Open::none();
    let header = lay_header(out);
    let mut run = Run {
        to: header,
        count: 0,
    };
    let mut at = start_of(doc);
    let mut first = true;
    // Each turn goes on where the item ended, so the place is no count.
    loop {
        let seen = next_item(table, doc, &starts, &lens, opened, at, first);
        let next = seen.item;
        let placed = seen.placed;
        match placed {
            Placement::Fault(why) => {
                return Err(ItemError { why, at });
            }
            Placement::Over => {
                return Ok(Table {
                    length: run.to,
                    selected: run.count,
                });
            }
            Placement::Fine => {
                keep(&mut starts, &mut lens, opened, at, next);
                let level = opened.level.0;
                if let Item::Start {
                    name,
                    head,
                    end,
                    empty,
                    twice: _,
                } = next
                {
                    let parent = states[level];
                    let a = at + 1;
                    let row = row_of(list, t, &doc[a..a + name]);
                    let slot = slot_of(row, slots[level]);
                    let before = memo[slot];
                    let known = before.renewed(false, t, row, parent);
                    memo[slot] = known;
                    let below = known.below;
                    let plain = known.verdict;
                    let verdict = judged(
                        table, list, t, tested, doc, parent, row, plain, at, name, head,
                    );
                    if level + 1 < Open::LEVELS {
                        states[level + 1] = below;
                        slots[level + 1] = slot;
                    }
                    run = start(
                        table, doc, &starts, &lens, level, verdict, end, empty, out, run,
                    );
                    opened = opened.after(next);
                    at = end;
                    first = false;
                    continue;
                }
                opened = opened.after(next);
                at = end_of(at, next);
                first = false;
            }
        }
    }
}

// By the tables of a sound list, a document of characters that names no other encoding: measured, and written where there is room.
fn written(list: &[u8], t: &Compiled, doc: &[u8], out: &mut [u8]) -> Result<Table, CutError>
    requires { Serves list.now t.now × (length doc.now ≤ 16777216)
        × (other_encoding (drop (start_of doc.now) doc.now) ≡ false) × (check_of doc.now ≡ Ok tt) }
    ensures value { result ≡ answer_by list.now doc.now (length out.old) }
    ensures out_after { out.new ≡ bytes_by list.now doc.now out.old }
{
    let table = Classes::new();
    let mut scratch = [0u8; 1];
    let measured = pass(&table, list, t, doc, &mut scratch)?;
    // 9: "giving the length of the whole table"
    let length = measured.length;
    if out.len() < length {
        return Err(CutError::Short(length));
    }
    // The same items come to the same.
    let _ = pass(&table, list, t, doc, out);
    Ok(measured)
}

// By the tables of a sound list, any document: 4, 10, 5, then 6 to 9.
fn rows_by(list: &[u8], t: &Compiled, doc: &[u8], out: &mut [u8]) -> Result<Table, CutError>
    requires { Serves list.now t.now }
    ensures value { result ≡ answer_by list.now doc.now (length out.old) }
    ensures out_after { out.new ≡ bytes_by list.now doc.now out.old }
{
    if doc.len() > Open::BYTES {
        return Err(CutError::from(DocumentError::TooLong));
    }
    let start = start_of(doc);
    if names_other(doc, start) {
        return Err(CutError::from(DocumentError::OtherEncoding(start)));
    }
    match check(doc) {
        Ok(()) => written(list, t, doc, out),
        Err(e) => Err(CutError::from(DocumentError::NotChar(e.valid_up_to))),
    }
}

// Any list, any document and any buffer. Only under 0 is a byte of the buffer changed, and then none after the table.
pub fn rows(list: &[u8], doc: &[u8], out: &mut [u8]) -> Result<Table, CutError>
    ensures value { result ≡ answer_of list.now doc.now (length out.old) }
    ensures out_after { out.new ≡ bytes_after list.now doc.now out.old }
{
    let mut t = [0u16; layout::LENGTH];
    read(list, &mut t)?;
    rows_by(list, &t, doc, out)
}
