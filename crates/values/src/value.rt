// Attribute values: [10] AttValue, in either quotes. Plain characters are passed in blocks, up to the next `<`, `&` or the quote that ends
// the value; at `&` a reference is read, and the value goes on after it.
ghost use Rattle.std.specs.Prelude.{◌≡◌, ◌≤◌, length, drop, Some};
ghost use Rattle.std.proofs.Math.Option.{some};
ghost use Rattle.chars.specs.Name.{reading_at};
ghost use Rattle.readers.specs.Read.{many};
ghost use Rattle.readers.specs.Value.{piece_of, quoted_of, value_of};
ghost use Rattle.readers.specs.Answer.{Answers};

use references::reference::reference;
use scans::byte::after_byte;
use scans::mark::to_mark;

// Where the pieces of a value between quotes q end: at a quote, at `<`, at an `&` that begins no reference, or at the end of all.
fn pieces(doc: &[u8], at: usize, q: u8) -> usize
    requires { at ≤ length doc.now }
    ensures { Answers doc.now at (Some result) (some (many (piece_of q) 0 (drop at doc.now))) }
{
    // Each turn goes on where the reference ended, so the place is no count.
    let mut i = to_mark(doc, at, q);
    while i < doc.len() {
        if doc[i] != 0x26 {
            return i;
        }
        match reference(doc, i) {
            Some((_, e)) => {
                i = to_mark(doc, e, q);
            }
            None => {
                return i;
            }
        }
    }
    i
}

// A value in quotes q.
fn quoted(doc: &[u8], at: usize, q: u8) -> Option<usize>
    ensures { Answers doc.now at result (quoted_of q (drop at doc.now)) }
{
    let i = after_byte(doc, at, q)?;
    let k = pieces(doc, i, q);
    after_byte(doc, k, q)
}

// [10] AttValue
pub fn value(doc: &[u8], at: usize) -> Option<usize>
    ensures { result ≡ reading_at doc.now at (value_of (drop at doc.now)) }
{
    match quoted(doc, at, 0x22) {
        Some(e) => Some(e),
        None => quoted(doc, at, 0x27),
    }
}
