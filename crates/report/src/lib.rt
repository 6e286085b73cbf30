// What the program `cut` prints, made in a buffer: document 01's sentences are `printed` in specs/Printed.antt, and the program only reads
// and writes.
//
//     decimal   a number in decimal
//     line      a word and two numbers
//     told      all that is printed for a list and a standard input
#![tactic(auto)]

ghost use Rattle.std.specs.Prelude.{◌≡◌, ◌+◌, ◌≤◌, length, take};
ghost use Rattle.writer.specs.Wrote.{Wrote};
ghost use Rattle.report.specs.Decimal.{decimal as decimal_of};
ghost use Rattle.report.specs.Printed.{spaced as spaced_of, line_of, kept_of, printed};

use exported::choughbell_cut;
use paths::PathList;
use writer::{copy, put};

// The most bytes of a document.
const DOCUMENT: usize = 32768;

// What is read of a list and of the standard input: one byte more than they may have.
pub const LIST: usize = PathList::BYTES + 1;

pub const INPUT: usize = DOCUMENT + 1;

// The output room, in bytes.
const ROOM: usize = 65536;

// Bytes enough for all that is printed: a cut that fills the room, with a word and two numbers of at most 20 digits.
pub const PRINTED: usize = 65600;

// Lays a number in decimal at a place, and gives the place after it. Its digits are laid one by one: `format!` allocates, and so can fail.
fn decimal(out: &mut [u8], at: usize, n: u64) -> usize
    requires { at + 20 ≤ 18446744073709551615 }
    ensures { Wrote out.old at (decimal_of n) result out.new }
{
    if n < 10 {
        return put(out, at, 48 + n as u8);
    }
    let last = decimal(out, at, n / 10);
    put(out, last, 48 + (n % 10) as u8)
}

// Lays a space and a number, and gives the place after them.
fn spaced(out: &mut [u8], at: usize, n: u64) -> usize
    requires { at + 21 ≤ 18446744073709551615 }
    ensures wrote { Wrote out.old at (spaced_of n) result out.new }
    ensures upper_bound { result ≤ at + 21 }
{
    let parted = put(out, at, b' ');
    decimal(out, parted, n)
}

// Lays a word, two numbers and LF at the front, and gives the place after them.
fn line(out: &mut [u8], word: &[u8], a: u64, b: u64) -> usize
    requires { length word.now ≤ 7 }
    ensures wrote { Wrote out.old 0 (line_of word.now a b) result out.new }
    ensures upper_bound { result ≤ 50 }
{
    let named = copy(out, 0, word);
    let first = spaced(out, named, a);
    let second = spaced(out, first, b);
    put(out, second, b'\n')
}

// Lays the line of a cut that is kept, the cut and LF at the front, and gives the place after them.
fn kept(out: &mut [u8], selected: u64, cut: &[u8]) -> usize
    requires { length cut.now ≤ 65536 }
    ensures wrote { Wrote out.old 0 (kept_of selected cut.now) result out.new }
    ensures upper_bound { result ≤ 65600 }
{
    let length = cut.len() as u64;
    let headed = line(out, b"kept", selected, length);
    let whole = copy(out, headed, cut);
    put(out, whole, b'\n')
}

// Lays all that is printed at the front, and gives the place after it.
fn tell(list: &[u8], input: &[u8], out: &mut [u8]) -> usize
    ensures wrote { Wrote out.old 0 (printed list.now input.now) result out.new }
    ensures upper_bound { result ≤ 65600 }
{
    if input.len() > DOCUMENT {
        return copy(out, 0, b"too long\n");
    }
    let mut room = [0u8; ROOM];
    let numbers = choughbell_cut(list, input, &mut room);
    let number = numbers.number;
    let second = numbers.second;
    if number == 0 {
        let length = second as usize;
        return kept(out, numbers.third, &room[..length]);
    }
    line(out, b"refused", number, second)
}

// All that is printed for the first m bytes of a list and the first n of a standard input, made in a buffer of at least PRINTED bytes. Both
// are lent with one byte more than they may have, so that what is longer is told; a program that reads less does not fit the types.
pub fn told<'a>(
    list: &[u8; LIST],
    m: usize,
    input: &[u8; INPUT],
    n: usize,
    out: &'a mut [u8],
) -> &'a [u8]
    requires { (m ≤ 8193) × (n ≤ 32769) × (65600 ≤ length out.old) }
    ensures { result.now ≡ printed (take m list.now) (take n input.now) }
{
    let lines = &list[..];
    let bytes = &input[..];
    let end = tell(&lines[..m], &bytes[..n], out);
    let whole = &out[..];
    &whole[..end]
}
