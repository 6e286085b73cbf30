// What several readers ask for: a byte of two; and what they step over, white space and [25] Eq. Each of these two begins at a place within
// the document.
ghost use Rattle.std.specs.Prelude.{◌≡◌, [], ◌∷◌, ◌≤◌, length, drop};
ghost use Rattle.xml.specs.Notation.{among};
ghost use Rattle.readers.specs.Read.{space_of};
ghost use Rattle.readers.specs.Named.{eq_of};
ghost use Rattle.readers.specs.Answer.{Answers};

use chars::space::after_space;
use scans::byte::after_byte;

// Whether b is one of two bytes.
pub fn is_one_of(b: u8, x: u8, y: u8) -> bool
    ensures { result ≡ among (x ∷ y ∷ []) b }
{
    (b == x) | (b == y)
}

// [3] S: one white space or more.
pub fn space(doc: &[u8], at: usize) -> Option<usize>
    requires { at ≤ length doc.now }
    ensures { Answers doc.now at result (space_of (drop at doc.now)) }
{
    let e = after_space(doc, at);
    if e == at {
        return None;
    }
    Some(e)
}

// [25] Eq: `=` with white space around it, or none.
pub fn eq(doc: &[u8], at: usize) -> Option<usize>
    requires { at ≤ length doc.now }
    ensures { Answers doc.now at result (eq_of (drop at doc.now)) }
{
    let k = after_space(doc, at);
    let i = after_byte(doc, k, b'=')?;
    Some(after_space(doc, i))
}
