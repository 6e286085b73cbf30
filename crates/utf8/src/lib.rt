// UTF-8: one well-formed sequence at a place of a slice, any slice and any place, by Unicode's table of nine rows. What it means is in
// specs/Sequence.antt.
#![tactic(auto)]

ghost use Rattle.std.specs.Prelude.{◌≡◌, ◌+◌, ◌≤◌, ◌<◌, length, get_or};
ghost use Rattle.xml.specs.Range.{inside, ◌–◌};
ghost use Rattle.xml.specs.Utf8.{size_of};
ghost use Rattle.xml.specs.Character.{value_of};
ghost use Rattle.utf8.specs.Sequence.{cells_of, formed, sequence_at};

// Each row: first byte from, to; second byte from, to. The first row has no second byte.
const ROWS: [[u8; 4]; 9] = [
    [0x00, 0x7F, 0, 0],
    [0xC2, 0xDF, 0x80, 0xBF],
    [0xE0, 0xE0, 0xA0, 0xBF],
    [0xE1, 0xEC, 0x80, 0xBF],
    [0xED, 0xED, 0x80, 0x9F],
    [0xEE, 0xEF, 0x80, 0xBF],
    [0xF0, 0xF0, 0x90, 0xBF],
    [0xF1, 0xF3, 0x80, 0xBF],
    [0xF4, 0xF4, 0x80, 0x8F],
];

// The row that has the first byte a; where there is none, one whose ranges are empty.
fn row_of(a: u8) -> [u8; 4]
    ensures { result ≡ cells_of a }
{
    for row in ROWS {
        if row[0] <= a && a <= row[1] {
            return row;
        }
    }
    [1, 0, 1, 0]
}

// How many bytes a sequence has that begins with a.
fn size_of(a: u8) -> usize
    ensures { (result ≡ size_of a) × (result ≤ 4) }
{
    if a < 0x80 {
        return 1;
    }
    if a < 0xE0 {
        return 2;
    }
    if a < 0xF0 {
        return 3;
    }
    4
}

// Whether b is a third or fourth byte.
fn is_later(b: u8) -> bool
    ensures { result ≡ inside (0x80 – 0xBF) b }
{
    if 0x80 <= b { b <= 0xBF } else { false }
}

// Whether a sequence begins with a, and b, c and d go on with it, as many of them as it has.
fn is_formed(a: u8, b: u8, c: u8, d: u8) -> bool
    ensures { result ≡ formed a b c d }
{
    let row = row_of(a);
    if row[1] < row[0] {
        return false;
    }
    let n = size_of(a);
    if n < 2 {
        return true;
    }
    if b < row[2] {
        return false;
    }
    if row[3] < b {
        return false;
    }
    if n < 3 {
        return true;
    }
    if !is_later(c) {
        return false;
    }
    if n < 4 {
        return true;
    }
    is_later(d)
}

// The code point of a sequence.
fn value_of(a: u8, b: u8, c: u8, d: u8) -> u32
    ensures { result ≡ value_of a b c d }
{
    let x = a as u32;
    let y = b as u32 % 0x40;
    let z = c as u32 % 0x40;
    let w = d as u32 % 0x40;
    if a < 0x80 {
        return x;
    }
    if a < 0xE0 {
        return x % 0x20 * 0x40 + y;
    }
    if a < 0xF0 {
        return x % 0x10 * 0x1000 + y * 0x40 + z;
    }
    x % 8 * 0x40000 + y * 0x1000 + z * 0x40 + w
}

// The byte k places after at, or 0, which no sequence has but alone.
fn byte_after(s: &[u8], at: usize, k: usize) -> u8
    requires { at ≤ length s.now }
    ensures { result ≡ get_or s.now (at + k) 0 }
{
    if k < s.len() - at {
        return s[at + k];
    }
    0
}

// The code point at the place at and the place after its sequence, where a well-formed one stands there; past the end none does.
pub fn sequence_at(s: &[u8], at: usize) -> Option<(u32, usize)>
    ensures { result ≡ sequence_at s.now at }
{
    if s.len() <= at {
        return None;
    }
    let a = s[at];
    let b = byte_after(s, at, 1);
    let c = byte_after(s, at, 2);
    let d = byte_after(s, at, 3);
    if is_formed(a, b, c, d) {
        return Some((value_of(a, b, c, d), at + size_of(a)));
    }
    None
}
