// Marks: `<`, `&` and one more byte, at which a run of plain text ends. The bytes before a mark are passed 16 at a time, by two words, and
// after 64 of them 64 at a time where none is a mark.
//
//   bytes   p  a  r  t     <  b  r     bit 7 of the mask's byte is set where the byte of the word is a mark,
//   mask    00 00 00 00 00 80 00 00    so the bytes of 0 below its lowest set bit are those before the first mark
ghost use Rattle.std.specs.Prelude.{◌≡◌, ◌+◌, ◌≤◌, ◌<◌, length, get_or, drop};
ghost use Rattle.utf8.specs.Place.{ends_at};
ghost use Rattle.blocks.specs.Block.{First, Skips, some_of, until};
ghost use Rattle.readers.specs.Plain.{is_mark};

use words::mask::marks;
use words::word::{first, word_at};

// Whether b is `<`, `&` or q.
fn is_mark(b: u8, q: u8) -> bool
    ensures { result ≡ is_mark q b }
{
    (b == 0x3C) | (b == 0x26) | (b == q)
}

// How many of the 16 bytes from i on stand before the first mark. Both words are looked at before either is asked.
pub fn before16(s: &[u8], i: usize, q: u8) -> usize
    requires { (i + 16 ≤ length s.now) × (q < 0x80) }
    ensures { First (λ k. is_mark q (get_or s.now (i + k) 0)) 16 result }
{
    let front = marks(word_at(s, i), 0x3C, 0x26, q);
    let back = marks(word_at(s, i + 8), 0x3C, 0x26, q);
    if front == 0 {
        return 8 + first(back);
    }
    first(front)
}

// Whether one of the 64 bytes from i on is a mark.
fn some_mark64(s: &[u8], i: usize, q: u8) -> bool
    requires { i + 64 ≤ length s.now }
    ensures { result ≡ some_of (λ k. is_mark q (get_or s.now (i + k) 0)) 64 }
{
    let mut found = false;
    for b in &s[i..i + 64] {
        found |= is_mark(*b, q);
    }
    found
}

// A place from `from` on before which no mark stands: past all blocks of 64 that have none.
fn after_blocks(s: &[u8], from: usize, q: u8) -> usize
    requires { from ≤ length s.now }
    ensures { Skips (is_mark q) s.now from result }
{
    // Over `chunks_exact(64)` the place would have to be made of a count of blocks: no plainer.
    let mut i = from;
    while s.len() - i >= 64 {
        if some_mark64(s, i, q) {
            return i;
        }
        i += 64;
    }
    i
}

// The first place from `from` on, by bytes, that has a mark, or the end.
fn mark_tail(s: &[u8], from: usize, q: u8) -> usize
    requires { from ≤ length s.now }
    ensures { result ≡ ends_at s.now from (until (is_mark q) (drop from s.now)) }
{
    for i in from..s.len() {
        if is_mark(s[i], q) {
            return i;
        }
    }
    s.len()
}

// The first place from `from` on with `<`, `&` or q, or the end; a place past the end is answered itself. A q that is not ASCII, which no
// caller has, is sought by bytes.
pub fn to_mark(s: &[u8], from: usize, q: u8) -> usize
    ensures { result ≡ ends_at s.now from (until (is_mark q) (drop from s.now)) }
{
    if from >= s.len() {
        return from;
    }
    if q >= 0x80 {
        return mark_tail(s, from, q);
    }
    // Each turn goes on where its scan ended, so the place is no count.
    let mut i = from;
    while s.len() - i >= 16 {
        let n = before16(s, i, q);
        if n < 16 {
            return i + n;
        }
        i += 16;
        if i - from == 64 {
            i = after_blocks(s, i, q);
            continue;
        }
    }
    mark_tail(s, i, q)
}
