// What a list says of an element, from the names of the elements from the root down to it, at the places 1 to k: "A path of m steps selects
// it if places can be chosen for its steps so that the last step has place k". For each path the places that its first step can have are
// found, from them those of the second step, and so on to the last: nothing is remembered from other elements.
//
//     //a/b  at  <a><a><b>         place    0   1   2   3
//     before the first step                 x   .   .   .        "before the first step is place 0"
//     //a                                   .   x   x   .        below place 0, and the name there is a
//     /b                                    .   .   .   x        one place below one of these, and the name there is b
//
// The last step can have place 3, so the path selects this b.
ghost use Rattle.std.specs.Prelude.{◌≡◌, ◌+◌, ◌≤◌, length, Ok};
ghost use Rattle.tags.specs.Kept.{name_from};
ghost use Rattle.paths.specs.Judge.{list_answer, list_paths};
ghost use Rattle.attributes.specs.Held.{attributes_in};
ghost use Rattle.matcher.specs.Says.{decided as decided_of, verdict_of};
ghost use Rattle.document.specs.Levels.{names_of};
ghost use Rattle.trees.specs.Written.{root_first};
ghost use Rattle.descent.specs.Lines.{LineIs, passes_test_by, verdict_by};
ghost use Rattle.descent.specs.Places.{may_stand, passes_by, name_at, Stepped, Inside};

use attribute::has::has;
use chars::text::stands;
use document::Open;
use paths::{Kind, end_at, step_at};
use points::class::Classes;

// Not selected; selected; selected by a path that is marked.
#[derive(Clone, Copy)]
pub enum Verdict {
    Unselected,
    Selected,
    Marked,
}

// Whether a path's steps select the element, and where they end in the list.
#[derive(Drop)]
struct Line {
    selects: bool,
    end: usize,
}

// The places of a step: 0, which is no element, and 1 to 64.
impl Line {
    pub const PLACES: usize = 65;
}

// Whether a step may stand at a place, by whether the step before can stand right above it, anywhere above it, and there. "A child step
// stands exactly one place below the step before, a descendant step at least one"; "Self takes the same place as the step before,
// descendant-or-self that place or any below".
fn may_stand(kind: Kind, right: bool, above: bool, there: bool) -> bool
    ensures { result ≡ may_stand kind right above there }
{
    match kind {
        Kind::Child => right,
        Kind::Descendant => above,
        Kind::SelfStep => there,
        Kind::DescendantOrSelf => there | above,
    }
}

// "Each name test equals the name there, `*` any name": the test of len bytes, 0 for `*`, that stands at a place of the list, and the name
// of n bytes at a.
fn passes(list: &[u8], test: usize, len: usize, doc: &[u8], a: usize, n: usize) -> bool
    requires { (test + len ≤ length list.now) × (a + n ≤ length doc.now) }
    ensures { result ≡ passes_by list.now test len (name_from doc.now a n) }
{
    if len == 0 {
        return true;
    }
    if len != n {
        return false;
    }
    let end = test + len;
    stands(doc, a, &list[test..end])
}

// From the places that the step before can have, those that a step can have.
fn step(
    list: &[u8],
    kind: Kind,
    test: usize,
    len: usize,
    doc: &[u8],
    starts: &[usize; Open::LEVELS],
    lens: &[usize; Open::LEVELS],
    level: usize,
    can: &mut [bool; Line::PLACES],
)
    requires { (test + len ≤ length list.now) × Inside doc.now starts.now lens.now level × (length can.old ≡ 65) }
    ensures { Stepped kind (passes_by list.now test len) (name_at doc.now starts.now lens.now) level
        can.old can.new }
{
    let mut right = can[0];
    let mut above = can[0];
    for p in 0..level {
        let there = can[p + 1];
        let may = may_stand(kind, right, above, there);
        can[p + 1] = may & passes(list, test, len, doc, starts[p], lens[p]);
        right = there;
        above = above | there;
    }
    can[0] = false; // "place 0 is no element, so no step takes it"
}

// The line at a place of the list, step by step.
fn line_at(
    list: &[u8],
    at: usize,
    doc: &[u8],
    starts: &[usize; Open::LEVELS],
    lens: &[usize; Open::LEVELS],
    level: usize,
) -> Line
    requires { Inside doc.now starts.now lens.now level × (at ≤ length list.now) }
    ensures { LineIs list.now at (root_first (names_of doc.now starts.now lens.now level))
        result.selects result.end }
{
    let mut can = [false; Line::PLACES];
    can[0] = true; // "before the first step is place 0"
    let mut i = at;
    // Each turn goes on where the step ended, so the place is no count.
    loop {
        match step_at(list, i) {
            Some(found) => {
                step(
                    list, found.kind, found.name, found.len, doc, starts, lens, level, &mut can,
                );
                i = found.end;
            }
            None => {
                return Line {
                    selects: can[level],
                    end: i,
                };
            }
        }
    }
}

// "The element passes if it has that attribute and the value equals it": the test of a line, by the places and lengths of its name and its
// value. A name of no bytes is no test, and any element passes.
fn passes_test(
    table: &Classes,
    list: &[u8],
    name: usize,
    len: usize,
    value: usize,
    size: usize,
    tag: &[u8],
) -> bool
    requires { (name + len ≤ length list.now) × (value + size ≤ length list.now) }
    ensures { result ≡ passes_test_by list.now name len value size (attributes_in 0 tag.now) }
{
    if len == 0 {
        return true;
    }
    let name_end = name + len;
    let value_end = value + size;
    has(table, tag, &list[name..name_end], &list[value..value_end])
}

// By whether a marked path picks the element, and whether any does.
fn decided(marked: bool, selected: bool) -> Verdict
    ensures { verdict_by result ≡ decided_of marked selected }
{
    if marked {
        return Verdict::Marked;
    }
    if selected {
        return Verdict::Selected;
    }
    Verdict::Unselected
}

// What a sound list says of the element to which the names of the first `level` levels lead. The tag is what stands in its head behind its
// name.
pub fn said_of(
    table: &Classes,
    list: &[u8],
    doc: &[u8],
    starts: &[usize; Open::LEVELS],
    lens: &[usize; Open::LEVELS],
    level: usize,
    tag: &[u8],
) -> Verdict
    requires { (list_answer list.now ≡ Ok tt) × Inside doc.now starts.now lens.now level }
    ensures { verdict_by result ≡ verdict_of (list_paths list.now)
        (root_first (names_of doc.now starts.now lens.now level)) (attributes_in 0 tag.now) }
{
    let mut at: usize = 0;
    let mut selected = false;
    let mut marked = false;
    // Each turn goes on where the line ended, so the place is no count.
    while at < list.len() {
        let line = line_at(list, at, doc, starts, lens, level);
        match end_at(list, line.end) {
            Some(end) => {
                let tested = passes_test(table, list, end.name, end.len, end.value, end.size, tag);
                let picks = line.selects & tested;
                selected = selected | picks;
                marked = marked | (picks & end.marked);
                at = end.next;
            }
            None => {
                return decided(marked, selected);
            }
        }
    }
    decided(marked, selected)
}
