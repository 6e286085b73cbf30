// A sound list laid in the packed form: its kinds, its steps, a line's test, a line, all lines. A line's length stands before it, so its
// steps are laid twice: first into a buffer of one byte, which measures them.
ghost use Rattle.std.specs.Prelude.{◌≡◌, true, ◌+◌, ◌≤◌, ◌<◌, length, drop, Ok};
ghost use Rattle.paths.specs.Path.{print_all};
ghost use Rattle.paths.specs.Reader.{steps};
ghost use Rattle.paths.specs.Judge.{small_names, list_answer, list_paths};
ghost use Rattle.writer.specs.Wrote.{Wrote};
ghost use Rattle.packed.specs.Packed.{pack_kind, pack_line, pack_of};
ghost use Rattle.packed.specs.Laid.{LaidSteps, pack_head, test_length, pack_placed, SoundLine, LaidLine};

use paths::{Kind, end_at, step_at};
use writer::{copy, put};

// How many steps were laid, and the places after them, in the text and in the buffer.
#[derive(Drop)]
pub struct Steps {
    pub count: usize,
    pub end: usize,
    pub to: usize,
}

// The places after a line, in the text and in the buffer.
#[derive(Drop)]
pub struct Line {
    pub end: usize,
    pub to: usize,
}

// The number of a kind.
fn kind_number(kind: Kind) -> u8
    ensures { result ≡ pack_kind kind }
{
    match kind {
        Kind::Child => 0,
        Kind::Descendant => 1,
        Kind::SelfStep => 2,
        Kind::DescendantOrSelf => 3,
    }
}

// Lays the steps that stand in a list from a place on, as many as there are. No name of them is over its size.
fn lay_steps(list: &[u8], at: usize, out: &mut [u8], to: usize) -> Steps
    requires { (small_names (steps (drop at list.now)).all ≡ true) × (at ≤ length list.now) × (length list.now ≤ 8192)
        × (to ≤ 2000000) }
    ensures { LaidSteps list.now at out.old to result out.new }
{
    let mut count: usize = 0;
    let mut end = at;
    let mut place = to;

    // Each turn goes on where the reader ended, so the place is no count.
    loop {
        match step_at(list, end) {
            Some(step) => {
                let a = put(out, place, kind_number(step.kind));
                let b = put(out, a, step.len as u8);
                let name = step.name;
                let e = name + step.len;
                place = copy(out, b, &list[name..e]);
                count += 1;
                end = step.end;
            }
            None => {
                return Steps {
                    count,
                    end,
                    to: place,
                };
            }
        }
    }
}

// How many bytes a test takes, of which the lengths of its name and value are given: without a name there is none.
fn test_length(len: usize, size: usize) -> usize
    requires { (len ≤ 255) × (size ≤ 255) }
    ensures { (result ≡ test_length len size) × (result ≤ 512) }
{
    if len == 0 {
        return 1;
    }
    2 + len + size
}

// Lays a test, of which the places and lengths of its name and value are given: without a name there is none.
fn lay_test(
    list: &[u8],
    name: usize,
    len: usize,
    value: usize,
    size: usize,
    out: &mut [u8],
    to: usize,
) -> usize
    requires { (len ≤ 255) × (size ≤ 255) × (name + len ≤ length list.now) × (value + size ≤ length list.now) × (to ≤ 3000000) }
    ensures { Wrote out.old to (pack_placed list.now name len value size) result out.new }
{
    let a = put(out, to, len as u8);
    if len == 0 {
        return a;
    }
    let e = name + len;
    let b = copy(out, a, &list[name..e]);
    let c = put(out, b, size as u8);
    let f = value + size;
    copy(out, c, &list[value..f])
}

// Lays what stands before a line's steps: two bytes of its length, the mark, the number of steps.
fn lay_head(length: usize, marked: bool, count: usize, out: &mut [u8], to: usize) -> usize
    requires { (length < 65536) × (count ≤ 255) × (to ≤ 1000000) }
    ensures { Wrote out.old to (pack_head length marked count) result out.new }
{
    let a = put(out, to, (length / 256) as u8);
    let b = put(out, a, (length % 256) as u8);
    let c = put(out, b, u8::from(marked));
    put(out, c, count as u8)
}

// Lays the sound line that stands in a list at a place.
fn lay_line(list: &[u8], at: usize, out: &mut [u8], to: usize) -> Line
    requires { SoundLine list.now at × (length list.now ≤ 8192) × (to ≤ 1000000) }
    ensures { LaidLine list.now at out.old to result out.new }
{
    let mut scratch = [0u8; 1];
    let measured = lay_steps(list, at, &mut scratch, 0);
    let end = measured.end;
    match end_at(list, end) {
        Some(tail) => {
            let n = 2 + measured.to + test_length(tail.len, tail.size);
            let a = lay_head(n, tail.marked, measured.count, out, to);
            let laid = lay_steps(list, at, out, a);
            let e = lay_test(
                list, tail.name, tail.len, tail.value, tail.size, out, laid.to,
            );
            Line {
                end: tail.next,
                to: e,
            }
        }
        None => Line { end: at, to },
    }
}

// Lays the lines of a sound list behind the version byte.
fn lay_lines(text: &[u8], out: &mut [u8]) -> usize
    requires { list_answer text.now ≡ Ok tt }
    ensures { Wrote out.old 1 (print_all pack_line (list_paths text.now)) result out.new }
{
    let mut at: usize = 0;
    let mut to: usize = 1;

    // Each turn goes on where the line before ended, so the place is no count.
    while at < text.len() {
        let line = lay_line(text, at, out, to);
        at = line.end;
        to = line.to;
    }
    to
}

// Lays the packed form of a sound list, and gives its length.
pub fn list(text: &[u8], out: &mut [u8]) -> usize
    requires { list_answer text.now ≡ Ok tt }
    ensures { Wrote out.old 0 (pack_of text.now) result out.new }
{
    put(out, 0, 1);
    lay_lines(text, out)
}
