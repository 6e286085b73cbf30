// [23] XMLDecl: `<?xml`, a version, then an encoding and `standalone` if they stand there, and `?>`. Each part is white space, a word, `=`
// and something in quotes. Two questions are asked: where a declaration ends, for which the encoding's name is checked for its shape only,
// and whether a declaration stands that names another encoding than UTF-8. Both are asked of any bytes.
ghost use Rattle.std.specs.Prelude.{◌≡◌, ◌-◌, ◌≤◌, length, take, drop};
ghost use Rattle.xml.specs.Character.{run};
ghost use Rattle.utf8.specs.Place.{Stands};
ghost use Rattle.chars.specs.Name.{reading_at};
ghost use Rattle.readers.specs.Read.{expect, or_stay};
ghost use Rattle.readers.specs.Named.{in_quotes, version_of, is_letter, encoding_of, is_utf8, other_of, yes_or_no};
ghost use Rattle.readers.specs.Named.{declaration_of, other_encoding};
ghost use Rattle.readers.specs.Answer.{Answers};
ghost use Rattle.instructions.specs.Part.{Goes, class_of, word_of, body_of, part_of, opening_of, closing_of};

use crate::steps::{eq, is_one_of, space};
use chars::space::after_space;
use chars::text::stands;
use scans::byte::after_byte;

// The parts of a declaration: a version, an encoding, another encoding than UTF-8, and `standalone`.
#[derive(Clone, Copy)]
pub enum Part {
    Version,
    Encoding,
    Other,
    Standalone,
}

fn is_letter(b: u8) -> bool
    ensures { result ≡ is_letter b }
{
    ((b >= 0x41) & (b <= 0x5A)) | ((b >= 0x61) & (b <= 0x7A))
}

// Whether b goes on with what stands in the quotes: a digit of a version's number, a character of an encoding's name.
fn goes_on(b: u8, part: Part) -> bool
    ensures { result ≡ class_of part b }
{
    let digit = (b >= 0x30) & (b <= 0x39);
    match part {
        Part::Version => digit,
        Part::Encoding => is_letter(b) | digit | (b == 0x2E) | (b == 0x5F) | (b == 0x2D),
        Part::Other => false,
        Part::Standalone => false,
    }
}

// Where those characters end.
fn after_class(doc: &[u8], at: usize, part: Part) -> usize
    requires { at ≤ length doc.now }
    ensures { Stands doc.now result (run (class_of part) 0 (drop at doc.now)) }
{
    match doc[at..].iter().position(|&b| !goes_on(b, part)) {
        Some(n) => at + n,
        None => doc.len(),
    }
}

// [26] VersionNum: `1.` and one digit or more.
fn version(doc: &[u8], at: usize) -> Option<usize>
    requires { at ≤ length doc.now }
    ensures { Answers doc.now at result (version_of (drop at doc.now)) }
{
    if !stands(doc, at, b"1.") {
        return None;
    }
    let e = after_class(doc, at + 2, Part::Version);
    if e == at + 2 {
        return None;
    }
    Some(e)
}

// [81] EncName: a letter, and what goes on with it.
fn encoding(doc: &[u8], at: usize) -> Option<usize>
    requires { at ≤ length doc.now }
    ensures { Answers doc.now at result (encoding_of (drop at doc.now)) }
{
    if at >= doc.len() {
        return None;
    }
    if !is_letter(doc[at]) {
        return None;
    }
    Some(after_class(doc, at, Part::Encoding))
}

// Whether the bytes from a place to another are `UTF-8`, in any case.
fn is_utf8(doc: &[u8], from: usize, to: usize) -> bool
    requires { (from ≤ to) × (to ≤ length doc.now) }
    ensures { result ≡ is_utf8 (take (to - from) (drop from doc.now)) }
{
    if to - from == 5 {
        return is_one_of(doc[from], b'U', b'u')
            & is_one_of(doc[from + 1], b'T', b't')
            & is_one_of(doc[from + 2], b'F', b'f')
            & (doc[from + 3] == b'-')
            & (doc[from + 4] == b'8');
    }
    false
}

// [81] EncName, but not `UTF-8`.
fn other(doc: &[u8], at: usize) -> Option<usize>
    requires { at ≤ length doc.now }
    ensures { Answers doc.now at result (other_of (drop at doc.now)) }
{
    let e = encoding(doc, at)?;
    if is_utf8(doc, at, e) {
        return None;
    }
    Some(e)
}

fn yes_or_no(doc: &[u8], at: usize) -> Option<usize>
    requires { at ≤ length doc.now }
    ensures { Answers doc.now at result (yes_or_no (drop at doc.now)) }
{
    if stands(doc, at, b"yes") {
        return Some(at + 3);
    }
    if stands(doc, at, b"no") {
        return Some(at + 2);
    }
    None
}

// What stands in the quotes of a part.
fn body(doc: &[u8], at: usize, part: Part) -> Option<usize>
    requires { at ≤ length doc.now }
    ensures { Answers doc.now at result (body_of part (drop at doc.now)) }
{
    match part {
        Part::Version => version(doc, at),
        Part::Encoding => encoding(doc, at),
        Part::Other => other(doc, at),
        Part::Standalone => yes_or_no(doc, at),
    }
}

// That in quotes, of either kind.
fn quoted(doc: &[u8], at: usize, part: Part) -> Option<usize>
    requires { at ≤ length doc.now }
    ensures { Answers doc.now at result (in_quotes (body_of part) (drop at doc.now)) }
{
    if at >= doc.len() {
        return None;
    }
    let q = doc[at];
    if (q != 0x27) & (q != 0x22) {
        return None;
    }
    let e = body(doc, at + 1, part)?;
    after_byte(doc, e, q)
}

// The word of a part.
fn word(doc: &[u8], at: usize, part: Part) -> Option<usize>
    requires { at ≤ length doc.now }
    ensures { Answers doc.now at result (expect (word_of part) (drop at doc.now)) }
{
    match part {
        Part::Version => {
            if stands(doc, at, b"version") {
                return Some(at + 7);
            }
        }
        Part::Encoding => {
            if stands(doc, at, b"encoding") {
                return Some(at + 8);
            }
        }
        Part::Other => {
            if stands(doc, at, b"encoding") {
                return Some(at + 8);
            }
        }
        Part::Standalone => {
            if stands(doc, at, b"standalone") {
                return Some(at + 10);
            }
        }
    }
    None
}

// A part: white space, its word, `=`, and what stands in its quotes.
fn setting(doc: &[u8], at: usize, part: Part) -> Option<usize>
    requires { at ≤ length doc.now }
    ensures { Answers doc.now at result (part_of part (drop at doc.now)) }
{
    let a = space(doc, at)?;
    let b = word(doc, a, part)?;
    let c = eq(doc, b)?;
    quoted(doc, c, part)
}

// Where a part ends, or the place itself where it does not stand.
fn optional(doc: &[u8], at: usize, part: Part) -> usize
    requires { at ≤ length doc.now }
    ensures { Goes doc.now at result (or_stay (part_of part (drop at doc.now)) (drop at doc.now)) }
{
    match setting(doc, at, part) {
        Some(e) => e,
        None => at,
    }
}

// What stands before the encoding: `<?xml` and a version.
fn opening(doc: &[u8], at: usize) -> Option<usize>
    ensures { Answers doc.now at result (opening_of (drop at doc.now)) }
{
    if !stands(doc, at, b"<?xml") {
        return None;
    }
    setting(doc, at + 5, Part::Version)
}

// What stands behind the encoding: `standalone` or not, white space or not, and `?>`.
fn closing(doc: &[u8], at: usize) -> Option<usize>
    requires { at ≤ length doc.now }
    ensures { Answers doc.now at result (closing_of (drop at doc.now)) }
{
    let s = optional(doc, at, Part::Standalone);
    let k = after_space(doc, s);
    if stands(doc, k, b"?>") {
        return Some(k + 2);
    }
    None
}

// The declaration at a place.
pub fn declaration(doc: &[u8], at: usize) -> Option<usize>
    ensures { result ≡ reading_at doc.now at (declaration_of (drop at doc.now)) }
{
    let v = opening(doc, at)?;
    let e = optional(doc, v, Part::Encoding);
    closing(doc, e)
}

// Whether a declaration stands at a place that names another encoding than UTF-8. What stands behind its `?>` does not matter.
pub fn names_other(doc: &[u8], at: usize) -> bool
    ensures { result ≡ other_encoding (drop at doc.now) }
{
    let Some(v) = opening(doc, at) else {
        return false;
    };
    let Some(e) = setting(doc, v, Part::Other) else {
        return false;
    };
    match closing(doc, e) {
        Some(_) => true,
        None => false,
    }
}
