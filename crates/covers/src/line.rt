// The lines of a list, each by places in the list's bytes.
//
//     /g//v[@k="x"] #
//     ^    ^       ^^
//     from steps   end, then the mark and LF, and the next line
ghost use Rattle.std.specs.Prelude.{◌≡◌, ◌+◌, ◌≤◌, length, Ok};
ghost use Rattle.paths.specs.Judge.{list_answer};
ghost use Rattle.covers.specs.Cover.{is_plain};
ghost use Rattle.covers.specs.Line.{StepsAre, LineIs, Lined, test_end};

use paths::{Kind, PathList, end_at, step_at};

// A line: where it begins, where its steps end, where its test ends, and the next line's place; whether it is marked, and whether it has
// child and descendant steps only.
#[derive(Clone, Copy)]
pub struct Line {
    pub from: usize,
    pub steps: usize,
    pub end: usize,
    pub next: usize,
    pub marked: bool,
    pub plain: bool,
}

// The lines of a list, and how many there are.
#[derive(Clone, Copy)]
pub struct Lines {
    pub all: [Line; Lines::MOST],
    pub count: usize,
}

impl Lines {
    pub const MOST: usize = PathList::LINES;
}

// Where the steps of a line end, and whether they are child and descendant steps only.
#[derive(Drop)]
struct Steps {
    end: usize,
    plain: bool,
}

// Whether a step is a child or a descendant step.
fn is_plain(kind: Kind) -> bool
    ensures { result ≡ is_plain kind }
{
    match kind {
        Kind::Child => true,
        Kind::Descendant => true,
        Kind::SelfStep => false,
        Kind::DescendantOrSelf => false,
    }
}

// The steps of the line at a place.
fn steps_at(list: &[u8], at: usize) -> Steps
    requires { at ≤ length list.now }
    ensures { StepsAre list.now at result.end result.plain }
{
    let mut i = at;
    let mut plain = true;
    // Each turn goes on where the step before ended, so the place is no count.
    loop {
        match step_at(list, i) {
            Some(step) => {
                plain = plain & is_plain(step.kind);
                i = step.end;
            }
            None => {
                return Steps { end: i, plain };
            }
        }
    }
}

// Where a test ends: two bytes behind its value, or where it would begin if there is none.
fn test_end(at: usize, len: usize, value: usize, size: usize) -> usize
    requires { value + size ≤ 8192 }
    ensures { result ≡ test_end at len value size }
{
    if len == 0 {
        return at;
    }
    value + size + 2
}

// The line at a place. Where no line ends, it is said to end behind its steps.
pub fn line_at(list: &[u8], at: usize) -> Line
    requires { (at ≤ length list.now) × (length list.now ≤ 8192) }
    ensures { LineIs list.now at result }
{
    let steps = steps_at(list, at);
    match end_at(list, steps.end) {
        Some(end) => Line {
            from: at,
            steps: steps.end,
            end: test_end(steps.end, end.len, end.value, end.size),
            next: end.next,
            marked: end.marked,
            plain: steps.plain,
        },
        None => Line {
            from: at,
            steps: steps.end,
            end: steps.end,
            next: steps.end,
            marked: false,
            plain: steps.plain,
        },
    }
}

// The lines of a sound list.
pub fn lines_of(list: &[u8]) -> Lines
    requires { list_answer list.now ≡ Ok tt }
    ensures { Lined list.now result.all result.count }
{
    let none = Line {
        from: 0,
        steps: 0,
        end: 0,
        next: 0,
        marked: false,
        plain: false,
    };
    let mut all = [none; Lines::MOST];
    let mut count: usize = 0;
    let mut at: usize = 0;
    // Each turn goes on where the line before ended, so the place is no count.
    while at < list.len() {
        let line = line_at(list, at);
        all[count] = line;
        count += 1;
        at = line.next;
    }
    Lines { all, count }
}
