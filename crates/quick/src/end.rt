// The end tag that mostly stands where an element ends: `</`, the bytes of the element's name and `>`, with no white space. It is compared
// with the name, by one word of each where the name has up to eight bytes, and not read.
ghost use Rattle.std.specs.Prelude.{◌≡◌, cond, ◌+◌, ◌≤◌, length, take, drop};
ghost use Rattle.xml.specs.Character.{begins};
ghost use Rattle.quick.specs.End.{closes_here};

use chars::text::stands;
use words::word::{first, word_at};

// Whether the n bytes at x stand at a too. The first byte set in `^` of two words is the first that differs.
fn same_name(doc: &[u8], a: usize, x: usize, n: usize) -> bool
    requires { (a ≤ length doc.now) × (x + n ≤ length doc.now) }
    ensures { result ≡ begins (take n (drop x doc.now)) (drop a doc.now) }
{
    if n <= 8 {
        if doc.len() - a >= 8 {
            if doc.len() - x >= 8 {
                return n <= first(word_at(doc, a) ^ word_at(doc, x));
            }
        }
    }
    stands(doc, a, &doc[x..x + n])
}

// How long the end tag at a place is that has the name of n bytes at x and no white space; 0 where another stands there, or none.
pub fn end_tag(doc: &[u8], at: usize, x: usize, n: usize) -> usize
    requires { (at ≤ length doc.now) × (x + n ≤ length doc.now) × (length doc.now ≤ 16777216) }
    ensures { result ≡ cond (closes_here doc.now at x n) (n + 3) 0 }
{
    if doc.len() - at < n + 3 {
        return 0;
    }
    if doc[at + 1] != b'/' {
        return 0;
    }
    if doc[at + 2 + n] != b'>' {
        return 0;
    }
    if same_name(doc, at + 2, x, n) {
        return n + 3;
    }
    0
}
