// What an item that is no tag says in the text of its element, by its bytes: "CDATA content included, literal CR LF and CR made LF,
// references replaced".
ghost use Rattle.std.specs.Prelude.{◌≡◌, [], ◌∷◌, ◌+◌, ◌*◌, ◌%◌, ◌≤◌, ◌<◌, eqb, length};
ghost use Rattle.xml.specs.Utf8.{utf8};
ghost use Rattle.readers.specs.Value.{reference_of};
ghost use Rattle.rows.specs.Text.{line_by, lines as lines_of, content, said_by, said_of};
ghost use Rattle.rows.specs.Laid.{Lays};

use crate::field::{Laid, lay};
use chars::text::stands;
use references::reference::reference;

// A byte of text, by whether a CR stands before it: CR is made LF, and LF behind CR is no more.
fn lay_line(after: bool, b: u8, quoted: bool, out: &mut [u8], to: usize) -> Laid
    requires { to + 2 ≤ 18446744073709551615 }
    ensures lays { Lays quoted out.old to (line_by after (eqb b 0xD) (eqb b 0xA) b []) result out.new }
    ensures to_bound { result.to ≤ to + 2 }
{
    if b == 0x0D {
        return lay(out, to, 0x0A, quoted);
    }
    if after & (b == 0x0A) {
        return Laid { to, special: false };
    }
    lay(out, to, b, quoted)
}

// Text as it came, but for its line ends.
fn lay_lines(raw: &[u8], quoted: bool, out: &mut [u8], to: usize) -> Laid
    requires { (length raw.now ≤ 16777216) × (to < 9223372036854775808) }
    ensures lays { Lays quoted out.old to (lines_of raw.now) result out.new }
    ensures to_bound { result.to ≤ to + 2 * length raw.now }
{
    let mut at = to;
    let mut special = false;
    let mut after = false;
    for &b in raw {
        let laid = lay_line(after, b, quoted, out, at);
        at = laid.to;
        special |= laid.special;
        after = b == 0x0D;
    }
    Laid { to: at, special }
}

// The second byte of a character or a later one: six bits of it.
fn later(bits: u32) -> u8
    ensures { result ≡ 0x80 + bits % 0x40 }
{
    (0x80 + bits % 0x40) as u8
}

// Two bytes, one after the other.
fn lay_two(a: u8, b: u8, quoted: bool, out: &mut [u8], to: usize) -> Laid
    requires { to + 4 ≤ 18446744073709551615 }
    ensures lays { Lays quoted out.old to (a ∷ b ∷ []) result out.new }
    ensures to_bound { result.to ≤ to + 4 }
{
    let first = lay(out, to, a, quoted);
    let second = lay(out, first.to, b, quoted);
    Laid {
        to: second.to,
        special: first.special | second.special,
    }
}

// A character in UTF-8.
fn lay_char(c: u32, quoted: bool, out: &mut [u8], to: usize) -> Laid
    requires { (c < 0x110000) × (to < 9223372036854775808) }
    ensures lays { Lays quoted out.old to (utf8 c) result out.new }
    ensures to_bound { result.to ≤ to + 8 }
{
    if c < 0x80 {
        return lay(out, to, c as u8, quoted);
    }
    if c < 0x800 {
        return lay_two((0xC0 + c / 0x40) as u8, later(c), quoted, out, to);
    }
    if c < 0x10000 {
        let first = lay(out, to, (0xE0 + c / 0x1000) as u8, quoted);
        let rest = lay_two(later(c / 0x40), later(c), quoted, out, first.to);
        return Laid {
            to: rest.to,
            special: first.special | rest.special,
        };
    }
    let first = lay_two(
        (0xF0 + c / 0x40000) as u8,
        later(c / 0x1000),
        quoted,
        out,
        to,
    );
    let rest = lay_two(later(c / 0x40), later(c), quoted, out, first.to);
    Laid {
        to: rest.to,
        special: first.special | rest.special,
    }
}

// The character that a reference says, and nothing where it is none.
fn lay_reference(raw: &[u8], quoted: bool, out: &mut [u8], to: usize) -> Laid
    requires { to < 9223372036854775808 }
    ensures lays { Lays quoted out.old to (said_by (reference_of raw.now)) result out.new }
    ensures to_bound { result.to ≤ to + 8 }
{
    match reference(raw, 0) {
        Some((c, _)) => lay_char(c, quoted, out, to),
        None => Laid { to, special: false },
    }
}

// What stands in a CDATA section between `<![CDATA[` and `]]>`.
fn lay_section(raw: &[u8], quoted: bool, out: &mut [u8], to: usize) -> Laid
    requires { (length raw.now ≤ 16777216) × (to < 9223372036854775808) }
    ensures lays { Lays quoted out.old to (lines_of (content raw.now)) result out.new }
    ensures to_bound { result.to ≤ to + 2 * length raw.now }
{
    if raw.len() < 12 {
        return Laid { to, special: false };
    }
    let end = raw.len() - 3;
    lay_lines(&raw[9..end], quoted, out, to)
}

// An item by its bytes: a section; a comment or an instruction, which says nothing; a reference; text.
pub fn lay_said(raw: &[u8], quoted: bool, out: &mut [u8], to: usize) -> Laid
    requires { (length raw.now ≤ 16777216) × (to < 9223372036854775808) }
    ensures lays { Lays quoted out.old to (said_of raw.now) result out.new }
    ensures to_bound { result.to ≤ to + 8 * length raw.now }
{
    if stands(raw, 0, b"<![CDATA[") {
        return lay_section(raw, quoted, out, to);
    }
    if stands(raw, 0, b"<") {
        return Laid { to, special: false };
    }
    if stands(raw, 0, b"&") {
        return lay_reference(raw, quoted, out, to);
    }
    lay_lines(raw, quoted, out, to)
}
