// References: [66] CharRef, [68] EntityRef of the five predefined names, [67] Reference. Each reader gives the code point of the character
// that a reference says, and where the reference ends; or none, where no sound one stands. A number stays at 0x110000 once it is past the
// last code point, so that one of any length never wraps.
ghost use Rattle.std.specs.Prelude.{◌≡◌, false, ◌+◌, ◌*◌, ◌≤◌, ◌<◌, min, length, drop};
ghost use Rattle.readers.specs.Read.{and_then, expect};
ghost use Rattle.readers.specs.Value.{ends_number};
ghost use Rattle.readers.specs.Value.{digits_of, char_ref_of, entity_of, entity_ref_of, reference_of};
ghost use Rattle.readers.specs.Answer.{Answers};
ghost use Rattle.references.specs.Digit.{Base, digit_in};
ghost use Rattle.references.specs.Say.{Tells, saying_at};

use chars::text::stands;
use points::allowed::is_char;

// One digit more, up to the first number that is no code point.
fn with_digit(n: u32, base: u32, v: u32) -> u32
    requires { (n ≤ 0x110000) × (base ≤ 16) × (v < 16) }
    ensures { result ≡ min (n * base + v) 0x110000 }
{
    (n * base + v).min(0x110000)
}

// Whether a byte ends digits of which there are any, and that make n.
fn ends_number(b: u8, any: bool, n: u32) -> bool
    ensures { result ≡ ends_number b any n }
{
    if b == 0x3B {
        if any {
            return is_char(n);
        }
    }
    false
}

// Digits of a base, then `;`.
fn digits(doc: &[u8], at: usize, base: u32) -> Option<(u32, usize)>
    requires { (at ≤ length doc.now) × Base base }
    ensures { Tells doc.now at result (digits_of (digit_in base) base 0 false (drop at doc.now)) }
{
    let mut n: u32 = 0;
    for (k, &b) in doc[at..].iter().enumerate() {
        let Some(v) = char::from(b).to_digit(base) else {
            if ends_number(b, k > 0, n) {
                let end = at + k + 1;
                return Some((n, end));
            }
            return None;
        };
        n = with_digit(n, base, v);
    }
    None
}

// A text, and where it ends.
fn after(doc: &[u8], at: usize, text: &[u8]) -> Option<usize>
    requires { 0 < length text.now }
    ensures { Answers doc.now at result (expect text.now (drop at doc.now)) }
{
    if stands(doc, at, text) {
        return Some(at + text.len());
    }
    None
}

// A text, then digits of a base and `;`.
fn numbered(doc: &[u8], at: usize, text: &[u8], base: u32) -> Option<(u32, usize)>
    requires { (0 < length text.now) × Base base }
    ensures { Tells doc.now at result
        (and_then (expect text.now (drop at doc.now)) (digits_of (digit_in base) base 0 false)) }
{
    let i = after(doc, at, text)?;
    digits(doc, i, base)
}

// [66] CharRef
fn char_ref(doc: &[u8], at: usize) -> Option<(u32, usize)>
    ensures { Tells doc.now at result (char_ref_of (drop at doc.now)) }
{
    match numbered(doc, at, b"&#x", 16) {
        Some((c, e)) => Some((c, e)),
        None => numbered(doc, at, b"&#", 10),
    }
}

// A text that says the character c.
fn entity(doc: &[u8], at: usize, text: &[u8], c: u32) -> Option<(u32, usize)>
    requires { 0 < length text.now }
    ensures { Tells doc.now at result (entity_of text.now c (drop at doc.now)) }
{
    let e = after(doc, at, text)?;
    Some((c, e))
}

// [68] EntityRef
fn entity_ref(doc: &[u8], at: usize) -> Option<(u32, usize)>
    ensures { Tells doc.now at result (entity_ref_of (drop at doc.now)) }
{
    if let Some((c, e)) = entity(doc, at, b"&amp;", 0x26) {
        return Some((c, e));
    }
    if let Some((c, e)) = entity(doc, at, b"&lt;", 0x3C) {
        return Some((c, e));
    }
    if let Some((c, e)) = entity(doc, at, b"&gt;", 0x3E) {
        return Some((c, e));
    }
    if let Some((c, e)) = entity(doc, at, b"&apos;", 0x27) {
        return Some((c, e));
    }
    entity(doc, at, b"&quot;", 0x22)
}

// [67] Reference
pub fn reference(doc: &[u8], at: usize) -> Option<(u32, usize)>
    ensures { result ≡ saying_at doc.now at (reference_of (drop at doc.now)) }
{
    match entity_ref(doc, at) {
        Some((c, e)) => Some((c, e)),
        None => char_ref(doc, at),
    }
}
