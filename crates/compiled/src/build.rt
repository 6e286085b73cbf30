// The tables of a sound list, entered step by step: a step's name, if it is not there yet, and its bit in the row of its name; for a line
// the bits of the steps that stay, go or go far, the bit of its last, its mark, and the place of its test.
ghost use Rattle.std.specs.Prelude.{◌≡◌, ◌+◌, ◌<◌, ◌≤◌, length, cond};
ghost use Rattle.paths.specs.Place.{line_end_at};
ghost use Rattle.compiled.specs.Line.{AtLine, LineDone, tail_of, if_tested};
ghost use Rattle.compiled.specs.Built.{Held, Entered, AtStep, StepDone};

use crate::kinds::{far_bit, go_bit, stay_bit};
use crate::layout;
use crate::rows::add_bit;
use lookup::find::find;
use lookup::hashing::hash;
use paths::{end_at, step_at};

// How many names there are, and the number of the name entered.
#[derive(Drop)]
pub struct Numbered {
    pub names: usize,
    pub number: usize,
}

// The name of n bytes at a is entered where it is not there; no bytes are `*`, of number 0.
fn with_name(
    list: &[u8],
    at: &mut [u16; layout::NAMES],
    len: &mut [u16; layout::NAMES],
    head: &mut [u16; layout::HEADS],
    next: &mut [u16; layout::NAMES],
    names: usize,
    a: usize,
    n: usize,
) -> Numbered
    requires { (names < 512) × (a + n ≤ length list.now) × (length list.now ≤ 8192)
        × Held list.now at.old len.old head.old next.old names }
    ensures { Entered list.now at.old len.old head.old next.old names a n
        at.new len.new head.new next.new result }
{
    if n == 0 {
        return Numbered { names, number: 0 };
    }
    let e = a + n;
    let k = find(list, at, len, head, next, &list[a..e]);
    if k != 0 {
        return Numbered { names, number: k };
    }
    let h = hash(&list[a..e]);
    at[names] = a as u16;
    len[names] = n as u16;
    next[names] = head[h];
    head[h] = (names + 1) as u16;
    Numbered {
        names: names + 1,
        number: names + 1,
    }
}

// A step of path p is entered: its name, and its bit in the row of its number.
fn add_step(
    list: &[u8],
    at: &mut [u16; layout::NAMES],
    len: &mut [u16; layout::NAMES],
    head: &mut [u16; layout::HEADS],
    next: &mut [u16; layout::NAMES],
    rows: &mut [u16],
    names: usize,
    p: usize,
    bit: usize,
    a: usize,
    n: usize,
) -> usize
    requires { AtStep list.now at.old len.old head.old next.old rows.old names p bit a n }
    ensures { StepDone list.now at.old len.old head.old next.old rows.old
        names p bit a n at.new len.new head.new next.new rows.new result }
{
    let m = with_name(list, at, len, head, next, names, a, n);
    add_bit(rows, m.number, p, bit as u16);
    m.names
}

// What a line has: how many names there are with its own; the place after its steps; the bit of the last step; those of the steps that may
// stay, go below, go far.
#[derive(Drop)]
pub struct Line {
    pub names: usize,
    pub end: usize,
    pub last: u16,
    pub stays: u16,
    pub goes: u16,
    pub far: u16,
}

// The steps of path p, whose line begins at a place, are entered.
pub fn enter_line(
    list: &[u8],
    at: &mut [u16; layout::NAMES],
    len: &mut [u16; layout::NAMES],
    head: &mut [u16; layout::HEADS],
    next: &mut [u16; layout::NAMES],
    rows: &mut [u16],
    names: usize,
    p: usize,
    from: usize,
) -> Line
    requires { AtLine list.now at.old len.old head.old next.old rows.old names p from }
    ensures { LineDone list.now at.new len.new head.new next.new rows.new p result }
{
    let mut count = names;
    let mut place = from;
    let mut bit: usize = 1;
    let mut stays: usize = 0;
    let mut goes: usize = 0;
    let mut far: usize = 0;
    // Each turn goes on where the step before ended, so the place is no count.
    'steps: loop {
        match step_at(list, place) {
            Some(step) => {
                count = add_step(
                    list, at, len, head, next, rows, count, p, bit, step.name, step.len,
                );
                stays = stays + stay_bit(step.kind, bit);
                goes = goes + go_bit(step.kind, bit);
                far = far + far_bit(step.kind, bit);
                bit = bit * 2;
                place = step.end;
            }
            None => break 'steps,
        }
    }
    Line {
        names: count,
        end: place,
        last: (bit / 2) as u16,
        stays: stays as u16,
        goes: goes as u16,
        far: far as u16,
    }
}

// The place of the name in a line's test, 0 for no test; its mark, and the place of the next line.
#[derive(Drop)]
pub struct Tail {
    pub test: usize,
    pub marked: bool,
    pub next: usize,
}

// The end of a line that is read to a place; no test, no mark and the place itself where no line ends.
pub fn tail_at(list: &[u8], at: usize) -> Tail
    ensures { result ≡ tail_of (line_end_at list.now at) at }
{
    match end_at(list, at) {
        Some(end) => Tail {
            test: end.name,
            marked: end.marked,
            next: end.next,
        },
        None => Tail {
            test: 0,
            marked: false,
            next: at,
        },
    }
}

// The bit of a last step, if its path is marked.
pub fn if_marked(marked: bool, last: u16) -> u16
    ensures { result ≡ cond marked last 0 }
{
    if marked {
        return last;
    }
    0
}

// The place where a line's test begins, if it has one.
pub fn if_tested(test: usize, place: usize) -> u16
    requires { place < 65536 }
    ensures { result ≡ if_tested test place }
{
    if test == 0 {
        return 0;
    }
    place as u16
}
