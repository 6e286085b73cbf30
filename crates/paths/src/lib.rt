// The path list: steps, tests and line ends at places, and the list judged line by line. What a list means is in specs/Path.antt, and what
// is answered in specs/Answer.antt.
#![tactic(auto)]

ghost use Rattle.std.specs.Prelude.{◌≡◌};
ghost use Rattle.paths.specs.Path.{is_value};
ghost use Rattle.paths.specs.Reader.{two_colons};
ghost use Rattle.paths.specs.Place.{test_end_at, step_end_at, value_end, attribute_end_at, mark_end_at, line_end_at};
ghost use Rattle.paths.specs.Judge.{list_answer};

use chars::name::name;
use chars::text::stands;
use points::allowed::is_char;
use utf8::sequence_at;

// Where a step stands, seen from the step before: one place below; any number of places below, from one on; the same place; that place or
// any below.
#[derive(Clone, Copy)]
pub enum Kind {
    Child,
    Descendant,
    SelfStep,
    DescendantOrSelf,
}

// A step that stands at a place: its kind, its name's place and length (0 for `*`), and its end.
#[derive(Drop)]
pub struct Step {
    pub kind: Kind,
    pub name: usize,
    pub len: usize,
    pub end: usize,
}

// The test of a line that stands at a place: the places and lengths of its name and its value, and its end.
#[derive(Drop)]
struct Test {
    name: usize,
    len: usize,
    value: usize,
    size: usize,
    end: usize,
}

// The end of a line that stands at a place: its test, its mark and the next line's place. Of the test there are the places and lengths of
// its name and its value, all 0 where there is none.
#[derive(Drop)]
pub struct LineEnd {
    pub name: usize,
    pub len: usize,
    pub value: usize,
    pub size: usize,
    pub marked: bool,
    pub next: usize,
}

// Why a list is refused: it is over 8,192 bytes; or its first line at fault, counted from 1, is malformed, or too large.
#[derive(Clone, Copy, Debug, PartialEq, Eq)]
pub enum ListError {
    TooLong,
    Malformed(usize),
    TooLarge(usize),
}

// The sizes for a list: bytes, lines, steps a line, bytes of a name and of a value.
pub struct PathList;

impl PathList {
    pub const BYTES: usize = 8192;

    pub const LINES: usize = 32;

    pub const STEPS: usize = 16;

    pub const NAME: usize = 255;

    pub const VALUE: usize = 255;
}

// Whether two colons stand side by side in a name.
#[tactic(auto, using(crate::proofs::Colons::apart))]
fn two_colons(name: &[u8]) -> bool
    ensures { result ≡ two_colons name.now }
{
    for i in 0..name.len() {
        if stands(name, i, b"::") {
            return true;
        }
    }
    false
}

// The step of a kind whose `*` or name stands at a place. A name with two colons side by side is no name of a step.
#[tactic(auto, using(crate::proofs::Places::testing))]
fn test_at(list: &[u8], at: usize, kind: Kind) -> Option<Step>
    ensures { result ≡ test_end_at kind list.now at }
{
    if stands(list, at, b"*") {
        return Some(Step {
            kind,
            name: at,
            len: 0,
            end: at + 1,
        });
    }
    match name(list, at) {
        Some(end) => {
            if two_colons(&list[at..end]) {
                return None;
            }
            Some(Step {
                kind,
                name: at,
                len: end - at,
                end,
            })
        }
        None => None,
    }
}

// The step at a place; past the end there is none.
#[tactic(auto, using(crate::proofs::Places::stepping))]
pub fn step_at(list: &[u8], at: usize) -> Option<Step>
    ensures { result ≡ step_end_at list.now at }
{
    if stands(list, at, b"//") {
        return test_at(list, at + 2, Kind::Descendant);
    }
    if stands(list, at, b"/self::") {
        return test_at(list, at + 7, Kind::SelfStep);
    }
    if stands(list, at, b"/descendant-or-self::") {
        return test_at(list, at + 21, Kind::DescendantOrSelf);
    }
    if stands(list, at, b"/") {
        return test_at(list, at + 1, Kind::Child);
    }
    None
}

// Whether a character may stand in a value.
fn in_value(c: u32) -> bool
    ensures { result ≡ is_value c }
{
    if c < 0x20 {
        return false;
    }
    if (c == 0x22) | (c == 0x3C) | (c == 0x26) {
        return false;
    }
    is_char(c)
}

// Where the characters of a value from a place on end: the place itself where there is none.
fn value_end(list: &[u8], at: usize) -> usize
    ensures { result ≡ value_end list.now at }
{
    let mut i = at;

    // Each turn goes on where the reader ended, so the place is no count.
    while i < list.len() {
        match sequence_at(list, i) {
            Some((c, e)) => {
                if !in_value(c) {
                    return i;
                }
                i = e;
            }
            None => {
                return i;
            }
        }
    }
    i
}

// The test of a line at a place: `[@`, a name, `="`, a value, `"]`. A name ends at `=` and a value at `"`, which they can't have.
#[tactic(auto, using(crate::proofs::Attributes::tested))]
fn attribute_at(list: &[u8], at: usize) -> Option<Test>
    ensures { result ≡ attribute_end_at list.now at }
{
    if !stands(list, at, b"[@") {
        return None;
    }
    let first = at + 2;
    match name(list, first) {
        Some(end) => {
            if !stands(list, end, b"=\"") {
                return None;
            }
            let value = end + 2;
            let stop = value_end(list, value);
            if !stands(list, stop, b"\"]") {
                return None;
            }
            Some(Test {
                name: first,
                len: end - first,
                value,
                size: stop - value,
                end: stop + 2,
            })
        }
        None => None,
    }
}

// The end of a line behind its test, whose places and lengths are given: LF, or a space, `#` and LF.
#[tactic(auto, using(crate::proofs::Ends::marking))]
fn mark_at(
    list: &[u8],
    at: usize,
    name: usize,
    len: usize,
    value: usize,
    size: usize,
) -> Option<LineEnd>
    ensures { result ≡ mark_end_at name len value size list.now at }
{
    if stands(list, at, b" #\n") {
        return Some(LineEnd {
            name,
            len,
            value,
            size,
            marked: true,
            next: at + 3,
        });
    }
    if stands(list, at, b"\n") {
        return Some(LineEnd {
            name,
            len,
            value,
            size,
            marked: false,
            next: at + 1,
        });
    }
    None
}

// The end of a line at a place: a test or none, a space and `#` or not, LF. Past the end there is none.
#[tactic(auto, using(crate::proofs::Ends::ending))]
pub fn end_at(list: &[u8], at: usize) -> Option<LineEnd>
    ensures { result ≡ line_end_at list.now at }
{
    match attribute_at(list, at) {
        Some(test) => mark_at(list, test.end, test.name, test.len, test.value, test.size),
        None => mark_at(list, at, 0, 0, 0, 0),
    }
}

// The list is judged line by line: the first line with a fault decides, and nothing after it is looked at. Within a line malformed comes
// before too large, so a line's sizes are looked at once it has been read to its end. Both loops go on where a reader ended, so a place is
// no count, and each is left by its label, with what is said of the line at fault.
#[tactic(auto, using(crate::proofs::Walk::walk))]
pub fn answer(list: &[u8]) -> Result<(), ListError>
    ensures { result ≡ list_answer list.now }
{
    if list.len() > PathList::BYTES {
        return Err(ListError::TooLong);
    }
    let mut at: usize = 0;
    let mut line: usize = 1;
    let said = 'lines: loop {
        if at >= list.len() {
            break 'lines Ok(());
        }
        if line > PathList::LINES {
            break 'lines Err(ListError::TooLarge(line));
        }
        let mut count: usize = 0;
        let mut small = true;
        'steps: loop {
            match step_at(list, at) {
                Some(step) => {
                    count += 1;
                    small = small & (step.len <= PathList::NAME);
                    at = step.end;
                }
                None => break 'steps,
            }
        }
        if count == 0 {
            break 'lines Err(ListError::Malformed(line));
        }
        match end_at(list, at) {
            Some(end) => {
                small = small & ((end.len <= PathList::NAME) & (end.size <= PathList::VALUE));
                at = end.next;
            }
            None => break 'lines Err(ListError::Malformed(line)),
        }
        if !((count <= PathList::STEPS) & small) {
            break 'lines Err(ListError::TooLarge(line));
        }
        line += 1;
    };
    said
}
