// A packed form spelled as text, whatever its bytes are: what is missing reads as 0, and no byte is judged. A part of it is laid into a
// buffer as text, and its bytes are passed: a step, a test, a line, at most 32 lines.
ghost use Rattle.std.specs.Prelude.{◌≡◌, ◌+◌, ◌≤◌, ◌<◌, length, drop, take};
ghost use Rattle.paths.specs.Path.{print_kind};
ghost use Rattle.writer.specs.Wrote.{Wrote};
ghost use Rattle.packed.specs.Spelled.{kind_of, spell_name, spell_step, spell_steps, spell_tested, spell_attribute};
ghost use Rattle.packed.specs.Spelled.{spell_end, spell_line, spelled};
ghost use Rattle.packed.specs.Laid.{ByteAt, Lays, Spells};

use paths::{Kind, PathList};
use writer::{copy, put};

// The places after a part, in the packed form and in the buffer.
#[derive(Drop)]
pub struct Part {
    pub end: usize,
    pub to: usize,
}

// The byte at a place; past the end 0.
fn byte_at(packed: &[u8], at: usize) -> usize
    ensures { ByteAt packed.now at result }
{
    if packed.len() <= at {
        return 0;
    }
    packed[at] as usize
}

// Lays the n bytes from a place on, as many of them as there are.
fn lay_part(packed: &[u8], at: usize, n: usize, out: &mut [u8], to: usize) -> usize
    requires { (n ≤ 255) × (to ≤ 100000000) }
    ensures { Lays n out.old to (take n (drop at packed.now)) result out.new }
{
    if packed.len() <= at {
        return to;
    }
    if packed.len() - at <= n {
        return copy(out, to, &packed[at..]);
    }
    let e = at + n;
    copy(out, to, &packed[at..e])
}

// The kind of a number; one that has none reads as the last.
#[tactic(auto, using(crate::proofs::Spelling::kinds))]
fn kind_of(k: usize) -> Kind
    ensures { result ≡ kind_of k }
{
    match k {
        0 => Kind::Child,
        1 => Kind::Descendant,
        2 => Kind::SelfStep,
        _ => Kind::DescendantOrSelf,
    }
}

// Lays what a kind of step is written as.
fn spell_kind(kind: Kind, out: &mut [u8], to: usize) -> usize
    requires { to ≤ 100000000 }
    ensures { Lays 21 out.old to (print_kind kind) result out.new }
{
    match kind {
        Kind::Child => copy(out, to, b"/"),
        Kind::Descendant => copy(out, to, b"//"),
        Kind::SelfStep => copy(out, to, b"/self::"),
        Kind::DescendantOrSelf => copy(out, to, b"/descendant-or-self::"),
    }
}

// Lays a name of n bytes at a place, or `*`.
fn spell_name(packed: &[u8], at: usize, n: usize, out: &mut [u8], to: usize) -> usize
    requires { (n ≤ 255) × (to ≤ 100000000) }
    ensures { Lays 255 out.old to (spell_name n (drop at packed.now)) result out.new }
{
    if n == 0 {
        return put(out, to, b'*');
    }
    lay_part(packed, at, n, out, to)
}

// Spells the step at a place.
fn spell_step(packed: &[u8], at: usize, out: &mut [u8], to: usize) -> Part
    requires { (at ≤ 10000000) × (to ≤ 10000000) }
    ensures { Spells 276 at out.old to (spell_step (drop at packed.now)) result out.new }
{
    let kind = kind_of(byte_at(packed, at));
    let n = byte_at(packed, at + 1);
    let a = spell_kind(kind, out, to);
    let e = spell_name(packed, at + 2, n, out, a);
    Part {
        end: at + 2 + n,
        to: e,
    }
}

// Spells so many steps from a place on.
#[tactic(auto, using(crate::proofs::Spelling::steps_spelled))]
fn spell_steps(packed: &[u8], at: usize, count: usize, out: &mut [u8], to: usize) -> Part
    requires { (count ≤ 255) × (at ≤ 5000000) × (to ≤ 5000000) }
    ensures { Spells 70380 at out.old to (spell_steps count (drop at packed.now)) result out.new }
{
    let mut end = at;
    let mut place = to;
    for _ in 0..count {
        let part = spell_step(packed, end, out, place);
        end = part.end;
        place = part.to;
    }
    Part { end, to: place }
}

// Spells the test at a place, of which the lengths of its name and value are given.
fn spell_tested(packed: &[u8], at: usize, n: usize, m: usize, out: &mut [u8], to: usize) -> usize
    requires { (n ≤ 255) × (m ≤ 255) × (at ≤ 10000000) × (to ≤ 10000000) }
    ensures { Lays 516 out.old to (spell_tested n m (drop at packed.now)).text result out.new }
{
    let name = at + 1;
    let value = at + 2 + n;
    let a = copy(out, to, b"[@");
    let b = lay_part(packed, name, n, out, a);
    let c = copy(out, b, b"=\"");
    let e = lay_part(packed, value, m, out, c);
    copy(out, e, b"\"]")
}

// Spells the test at a place: a name of no bytes is none.
fn spell_test(packed: &[u8], at: usize, out: &mut [u8], to: usize) -> Part
    requires { (at ≤ 10000000) × (to ≤ 10000000) }
    ensures { Spells 516 at out.old to (spell_attribute (drop at packed.now)) result out.new }
{
    let n = byte_at(packed, at);
    if n == 0 {
        return Part { end: at + 1, to };
    }
    let m = byte_at(packed, at + 1 + n);
    let e = spell_tested(packed, at, n, m, out, to);
    Part {
        end: at + 2 + n + m,
        to: e,
    }
}

// Spells a line's end by its mark byte: just 1 is a mark.
fn spell_end(mark: usize, out: &mut [u8], to: usize) -> usize
    requires { to ≤ 100000000 }
    ensures { Lays 3 out.old to (spell_end mark) result out.new }
{
    if mark == 1 {
        return copy(out, to, b" #\n");
    }
    copy(out, to, b"\n")
}

// Spells the line at a place: behind two bytes of its length the mark and the number of steps.
fn spell_line(packed: &[u8], at: usize, out: &mut [u8], to: usize) -> Part
    requires { (at ≤ 4000000) × (to ≤ 4000000) }
    ensures { Spells 71000 at out.old to (spell_line (drop at packed.now)) result out.new }
{
    let mark = byte_at(packed, at + 2);
    let count = byte_at(packed, at + 3);
    let steps = spell_steps(packed, at + 4, count, out, to);
    let test = spell_test(packed, steps.end, out, steps.to);
    let e = spell_end(mark, out, test.to);
    Part {
        end: test.end,
        to: e,
    }
}

// Spells a packed form behind its version byte, and gives the length of the text.
#[tactic(auto, using(crate::proofs::Spelling::spelling))]
pub fn list(packed: &[u8], out: &mut [u8]) -> usize
    ensures { Wrote out.old 0 (spelled packed.now) result out.new }
{
    let mut at: usize = 1;
    let mut to: usize = 0;
    for _ in 0..PathList::LINES {
        if packed.len() <= at {
            return to;
        }
        let line = spell_line(packed, at, out, to);
        at = line.end;
        to = line.to;
    }
    to
}
