// One pass over the items of a document: each is read and put in its place, its element is matched, and what is written of it is laid into
// the buffer as far as the buffer reaches, and noted as far as there is room for notes. Into one byte a pass measures; into a buffer that
// is long enough it writes.
//
//     levels          1     2     3                 starts, lens   the names of the open elements, by their places
//     <g><p><v>       g     p     v                 states         what each path has come to, below each of them
//     <g><p><v></v>   g     p     .                 an end tag goes back to the state of the parent
//
// State 0 is the fresh one, under which the root stands, and state k the one below level k. No element stands below level 64, so there is
// none of it. What is known of elements that were matched is kept (`memo`), by where that of the parent is (`slots`), and asked before
// another is matched: only the time depends on it.
#![tactic(auto)]

ghost use Rattle.std.specs.Prelude.{◌≡◌, ◌+◌, ◌-◌, ◌≤◌, ◌<◌, length, get_or, take, drop};
ghost use Rattle.matcher.specs.Fit.{Serves, fit_at};
ghost use Rattle.matcher.specs.State.{verdict_by};
ghost use Rattle.paths.specs.Judge.{list_paths};
ghost use Rattle.attributes.specs.Held.{attributes_in};
ghost use Rattle.items.specs.Item.{item_at};
ghost use Rattle.document.specs.Place.{placement};
ghost use Rattle.document.specs.Levels.{Names, opened_of};
ghost use Rattle.tags.specs.Usual.{ToldMark};
ghost use Rattle.tests.specs.Passing.{some_place};
ghost use Rattle.passes.specs.Opens.{Opens, Usual};
ghost use Rattle.passes.specs.Passed.{PassedBy};
ghost use Rattle.passes.specs.ByTests.{ByTests};

use compiled::Compiled;
use document::judge::start_of;
use document::place::{end_of, keep, place};
use document::{InputLevel, ItemError, Open, Placement};
use items::told::item;
use matcher::Verdict;
use matcher::fit::{fit_by, row_of};
use matcher::state::MatchState;
use output::Run;
use output::step::{other_step, tag_step};
use plain::text::text;
use points::class::Classes;
use quick::end::end_tag;
use recall::{Known, slot_of};
use scans::mark::before16;
use tags::Item;
use tags::usual::next_tag;
use tests::{any, passing};

// What a pass comes to where no item is at fault: the length of the cut, the number of elements selected, that of the name tests tried and
// that of the notes.
#[derive(Clone, Copy, Debug, PartialEq, Eq)]
pub struct Measured {
    pub length: usize,
    pub selected: usize,
    pub tests: usize,
    pub noted: usize,
}

// An item, and whether it may stand at its place.
#[derive(Drop)]
pub struct Next {
    pub item: Item,
    pub placed: Placement,
}

// Inside an element, the item that begins with `<`, where it is a usual one: an end tag of the element's name, which is compared with it
// and not read; or a start tag with no attribute twice, whose element is not too deep. Both may stand there. Else nothing is told.
fn usual_tag(
    table: &Classes,
    doc: &[u8],
    starts: &[usize; Open::LEVELS],
    lens: &[usize; Open::LEVELS],
    opened: Open,
    at: usize,
) -> Item
    requires { Names doc.now starts.now lens.now opened × (length doc.now ≤ 16777216)
        × Opens doc.now starts.now lens.now opened.level.0 × (1 ≤ opened.level.0) × (at < length doc.now)
        × (get_or doc.now at 0 ≡ 0x3C) }
    ensures { Usual doc.now at (opened_of doc.now starts.now lens.now opened) result }
{
    let level = opened.level.0;
    let x = starts[level - 1];
    let n = lens[level - 1];
    let size = end_tag(doc, at, x, n);
    if size > 0 {
        return Item::Finish {
            name: n,
            end: at + size,
        };
    }
    if level == Open::LEVELS {
        return Item::Nothing;
    }
    if doc.len() - at == 1 {
        return Item::Nothing;
    }
    if doc[at + 1] < 0x40 {
        return Item::Nothing;
    }
    let next = next_tag(table, doc, at);
    if let Item::Start {
        name: _,
        head: _,
        end: _,
        empty: _,
        twice,
    } = next
    {
        if !twice {
            return next;
        }
    }
    Item::Nothing
}

// The first place from `at` on with `<`, `&` or `]`, where it is one of the next 64 and words reach so far; else the end, which says
// nothing.
fn text_end(doc: &[u8], at: usize) -> usize
    requires { at ≤ length doc.now }
    ensures { ToldMark 0x5D doc.now at result }
{
    let mut i = at;
    // Each turn takes a block while one is left: a range by steps of 16 would need the place of the last, and be no plainer.
    while doc.len() - i >= 16 {
        let n = before16(doc, i, b']');
        if n < 16 {
            return i + n;
        }
        i += 16;
        if i - at == 64 {
            return doc.len();
        }
    }
    doc.len()
}

// Inside an element, the item at a place where it is a usual one: such a tag, or text. Else nothing is told: `Nothing`.
fn usual(
    table: &Classes,
    doc: &[u8],
    starts: &[usize; Open::LEVELS],
    lens: &[usize; Open::LEVELS],
    opened: Open,
    at: usize,
) -> Item
    requires { Names doc.now starts.now lens.now opened × (length doc.now ≤ 16777216)
        × Opens doc.now starts.now lens.now opened.level.0 × (at ≤ length doc.now) }
    ensures { Usual doc.now at (opened_of doc.now starts.now lens.now opened) result }
{
    let level = opened.level.0;
    if level == 0 {
        return Item::Nothing;
    }
    if at == doc.len() {
        return Item::Nothing;
    }
    let b = doc[at];
    if b == b'<' {
        return usual_tag(table, doc, starts, lens, opened, at);
    }
    if b == b'&' {
        return Item::Nothing;
    }
    let end = text_end(doc, at);
    if end < doc.len() {
        if doc[end] != b']' {
            return Item::Text(end);
        }
    }
    match text(doc, at) {
        Some(e) => Item::Text(e),
        None => Item::Nothing,
    }
}

// The item at a place, and whether it may stand there. Those that `usual` does not tell are read and placed.
pub fn next_item(
    table: &Classes,
    doc: &[u8],
    starts: &[usize; Open::LEVELS],
    lens: &[usize; Open::LEVELS],
    opened: Open,
    at: usize,
    first: bool,
) -> Next
    requires { Names doc.now starts.now lens.now opened × (length doc.now ≤ 16777216)
        × Opens doc.now starts.now lens.now opened.level.0 × (at ≤ length doc.now) }
    ensures item_value { result.item ≡ item_at first doc.now at }
    ensures placed_value { result.placed ≡ placement doc.now at result.item
        (opened_of doc.now starts.now lens.now opened) }
{
    let told = usual(table, doc, starts, lens, opened, at);
    if let Item::Nothing = told {
        let next = item(table, doc, at, first);
        let placed = place(doc, starts, lens, opened, at, next);
        return Next { item: next, placed };
    }
    Next {
        item: told,
        placed: Placement::Fine,
    }
}

// What the list says of an element of this row, where `plain` is what it says by the name alone. Where the steps of no path select it, or
// no path has a test (`tested`), its attributes are not looked at; else the tests of the paths that select it are tried, and the matcher
// is handed which of them pass. Attributes stand in the tag, from behind the name, which has so many bytes, to the end of the head.
pub fn judged(
    table: &Classes,
    list: &[u8],
    t: &Compiled,
    tested: bool,
    doc: &[u8],
    parent: MatchState,
    row: usize,
    plain: Verdict,
    at: usize,
    name: usize,
    head: usize,
) -> Verdict
    requires { Serves list.now t.now × (tested ≡ some_place (take 32 (drop 18368 t.now)))
        × (at + 1 + name ≤ head) × (head ≤ length doc.now) × (row ≤ 512) × (plain ≡ verdict_by parent (fit_at t.now row)) }
    ensures { ByTests (list_paths list.now)
        (attributes_in 0 (take (head - (at + 1 + name)) (drop (at + 1 + name) doc.now))) parent (fit_at t.now row) result }
{
    if let Verdict::Unselected = plain {
        return plain;
    }
    if tested {
        let from = at + 1 + name;
        let fit = fit_by(t, row);
        let selecting = parent.selecting(fit);
        let passed = passing(table, list, t, selecting, &doc[from..head]);
        return fit.verdict_of(passed);
    }
    plain
}

// By the tables of a sound list. Name tests are counted where that is asked for.
pub fn pass(
    table: &Classes,
    list: &[u8],
    t: &Compiled,
    counts: bool,
    doc: &[u8],
    out: &mut [u8],
    log: &mut [u64],
) -> Result<Measured, ItemError>
    requires { (length doc.now ≤ 16777216) × Serves list.now t.now × (length log.old ≤ 16777216) }
    ensures { PassedBy counts list.now doc.now out.old result out.new log.new }
{
    let tested = any(t);
    let fresh = MatchState::fresh();
    let mut states = [fresh; Open::LEVELS];
    let nothing = Known::nothing();
    let mut memo = [nothing; Known::KEPT];
    let mut slots = [0usize; Open::LEVELS];
    let mut starts = [0usize; Open::LEVELS];
    let mut lens = [0usize; Open::LEVELS];
    let mut opened = Open::none();
    let mut run = Run::none();
    let mut at = start_of(doc);
    let mut first = true;
    let mut tests: usize = 0;
    // Each turn goes on where the item ended, so the place is no count.
    loop {
        let seen = next_item(table, doc, &starts, &lens, opened, at, first);
        let next = seen.item;
        let placed = seen.placed;
        match placed {
            Placement::Fault(why) => {
                return Err(ItemError { why, at });
            }
            Placement::Over => {
                return Ok(Measured {
                    length: run.len,
                    selected: run.count,
                    tests,
                    noted: run.noted,
                });
            }
            Placement::Fine => {
                let level = opened.level.0;
                if let Item::Start {
                    name,
                    head,
                    end,
                    empty,
                    twice: _,
                } = next
                {
                    keep(&mut starts, &mut lens, opened, at, next);
                    let parent = states[level];
                    let a = at + 1;
                    let row = row_of(list, t, &doc[a..a + name]);
                    let slot = slot_of(row, slots[level]);
                    let before = memo[slot];
                    if !before.is_of(row, parent) {
                        memo[slot] = Known::made(counts, t, row, parent);
                    }
                    let known = memo[slot];
                    let below = known.below;
                    let plain = known.verdict;
                    let tried = known.tests;
                    tests = tests + (tried as usize);
                    let verdict = judged(
                        table, list, t, tested, doc, parent, row, plain, at, name, head,
                    );
                    if level + 1 < Open::LEVELS {
                        states[level + 1] = below;
                        slots[level + 1] = slot;
                    }
                    run = tag_step(
                        run,
                        InputLevel(level),
                        doc,
                        &starts,
                        &lens,
                        out,
                        log,
                        verdict,
                        at,
                        head,
                        end,
                        empty,
                    );
                    opened = opened.after(next);
                    at = end;
                    first = false;
                    continue;
                }
                run = other_step(
                    run,
                    InputLevel(level),
                    doc,
                    &starts,
                    &lens,
                    out,
                    log,
                    at,
                    next,
                );
                opened = opened.after(next);
                at = end_of(at, next);
                first = false;
            }
        }
    }
}
