// Whether an attribute's value, made normal, is a given text. The value is gone through once, character by character, with no buffer:
// literal CR LF and CR are a LF, literal tabs and LF a space, and a reference is its character. The text is UTF-8, and where it is not the
// answer is no.
ghost use Rattle.std.specs.Prelude.{◌≡◌, true, ◌&&◌, eqb, drop};
ghost use Rattle.xml.specs.Utf8.{utf8, is_scalar};
ghost use Rattle.xml.specs.Productions.{same};
ghost use Rattle.readers.specs.Read.{expect};
ghost use Rattle.readers.specs.Answer.{Answers};
ghost use Rattle.references.specs.Sign.{where_of};
ghost use Rattle.attributes.specs.Held.{quotes_of, normal_at};
ghost use Rattle.normal.specs.Plain.{plain_of};

use references::next::{Sign, Where, next};
use utf8::sequence_at;

// Where the character c at a place of a text ends.
fn put(text: &[u8], at: usize, c: u32) -> Option<usize>
    requires { is_scalar c ≡ true }
    ensures { Answers text.now at result (expect (utf8 c) (drop at text.now)) }
{
    let (x, e) = sequence_at(text, at)?;
    if x == c {
        return Some(e);
    }
    None
}

// Whether a literal c is the LF of a CR LF; `after` tells whether a literal CR stands before it.
fn joins(after: bool, c: u32) -> bool
    ensures { result ≡ after && eqb c 0xA }
{
    if after { c == 0xA } else { false }
}

// What a literal c is made, where it stands alone.
fn plain(c: u32) -> u32
    ensures { result ≡ plain_of c }
{
    if c == 0x9 {
        return 0x20;
    }
    if c == 0xA {
        return 0x20;
    }
    if c == 0xD {
        return 0x20;
    }
    c
}

// In which quotes a value is, by its first.
fn quotes(q: u8) -> Where
    ensures { where_of result ≡ quotes_of q }
{
    if q == 0x22 {
        return Where::Double;
    }
    Where::Single
}

// Whether the value from its first quote, at the place at, is the text, once it is made normal. Past the end there is no character.
pub fn value_is(doc: &[u8], at: usize, text: &[u8]) -> bool
    ensures { result ≡ same (normal_at (drop at doc.now)) text.now }
{
    if doc.len() <= at {
        return text.len() == 0;
    }
    let place = quotes(doc[at]);
    let mut i = at + 1;
    let mut k: usize = 0;
    let mut after = false;
    // Each turn goes on where the reader of a character ended, so the place is no count.
    loop {
        match next(doc, i, place) {
            Sign::Literal(c, e) => {
                if joins(after, c) {
                    after = false;
                    i = e;
                    continue;
                }
                match put(text, k, plain(c)) {
                    Some(m) => {
                        k = m;
                        after = c == 0xD;
                        i = e;
                        continue;
                    }
                    None => {
                        return false;
                    }
                }
            }
            Sign::Referred(c, e) => match put(text, k, c) {
                Some(m) => {
                    k = m;
                    after = false;
                    i = e;
                    continue;
                }
                None => {
                    return false;
                }
            },
            Sign::Nothing => {
                return k == text.len();
            }
        }
    }
}
