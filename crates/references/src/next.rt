// The next character of text, of a CDATA section or of an attribute value, with its origin and its end: it stands for itself, or a
// reference says it. So text, a section and a value can be gone through character by character; they end where the readers of them do.
ghost use Rattle.std.specs.Prelude.{◌≡◌, not, ◌&&◌, drop};
ghost use Rattle.xml.specs.Notation.{bytes};
ghost use Rattle.xml.specs.Character.{begins};
ghost use Rattle.xml.specs.Productions.{is_char};
ghost use Rattle.xml.specs.Sign.{plain_in, refers_in};
ghost use Rattle.readers.specs.Plain.{is_mark};
ghost use Rattle.readers.specs.Sign.{closed};
ghost use Rattle.references.specs.Sign.{where_of, itself_at, sign_at};

use crate::reference::reference;
use chars::text::stands;
use points::allowed::is_char;
use utf8::sequence_at;

// Where characters stand: in text, between tags and the like; in a CDATA section; in a value in double quotes or in single ones.
#[derive(Clone, Copy)]
pub enum Where {
    Text,
    Section,
    Double,
    Single,
}

// A code point and the place after it, by its origin; or that no character comes: text, section or value ends here, or is broken.
#[derive(Drop)]
pub enum Sign {
    Literal(u32, usize),
    Referred(u32, usize),
    Nothing,
}

// Whether an `&` that begins a reference stands at a place. In a section it stands for itself.
fn amp(doc: &[u8], at: usize, place: Where) -> bool
    ensures { result ≡ refers_in (where_of place) && begins (bytes "&") (drop at doc.now) }
{
    match place {
        Where::Text => stands(doc, at, b"&"),
        Where::Section => false,
        Where::Double => stands(doc, at, b"&"),
        Where::Single => stands(doc, at, b"&"),
    }
}

// Whether `]]>` stands where it may not be read over.
fn closes(doc: &[u8], at: usize, place: Where) -> bool
    ensures { result ≡ closed (where_of place) (drop at doc.now) }
{
    match place {
        Where::Text => stands(doc, at, b"]]>"),
        Where::Section => stands(doc, at, b"]]>"),
        Where::Double => false,
        Where::Single => false,
    }
}

// Whether c is a Char other than `<`, `&` and q.
fn other(c: u32, q: u32) -> bool
    ensures { result ≡ is_char c && not (is_mark q c) }
{
    if c == 0x3C {
        return false;
    }
    if c == 0x26 {
        return false;
    }
    if c == q {
        return false;
    }
    is_char(c)
}

// Whether c stands for itself there.
fn plain(place: Where, c: u32) -> bool
    ensures { result ≡ plain_in (where_of place) c }
{
    match place {
        Where::Text => other(c, 0x3C),
        Where::Section => is_char(c),
        Where::Double => other(c, 0x22),
        Where::Single => other(c, 0x27),
    }
}

// The character at a place that stands for itself.
fn itself(doc: &[u8], at: usize, place: Where) -> Sign
    ensures { result ≡ itself_at (where_of place) doc.now at }
{
    if closes(doc, at, place) {
        return Sign::Nothing;
    }
    match sequence_at(doc, at) {
        Some((c, e)) => {
            if plain(place, c) {
                return Sign::Literal(c, e);
            }
            Sign::Nothing
        }
        None => Sign::Nothing,
    }
}

// The next character at a place; past the end there is none.
pub fn next(doc: &[u8], at: usize, place: Where) -> Sign
    ensures { result ≡ sign_at (where_of place) doc.now at }
{
    if amp(doc, at, place) {
        return match reference(doc, at) {
            Some((c, e)) => Sign::Referred(c, e),
            None => Sign::Nothing,
        };
    }
    itself(doc, at, place)
}
