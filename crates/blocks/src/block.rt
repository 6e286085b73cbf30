// Blocks of 64 bytes, passed at once where they are plain, so that each byte is an ASCII character that XML allows, or where all their
// characters are usual. Usual are the characters that XML allows, but those that begin with EF BF or with F1 and higher bytes.
//
// A block that is not plain is looked at as 64 places, each with the byte after it, which must go on with a character exactly where the one
// before it asks for that; and where characters have more than two bytes, each with the three bytes after it, of which the last must go on
// exactly where one of the three before it asks for that.
//
//   bytes       61 C3 A9 E2 82 AC F0 9F 98 80 62     C2 to DF ask for one byte more, E0 to EF for two, F0 for three
//   asked for          *     *  *     *  *  *
ghost use Rattle.std.specs.Prelude.{◌≡◌, ◌+◌, ◌≤◌, length, get_or};
ghost use Rattle.blocks.specs.Block.{is_other, some_of};
ghost use Rattle.blocks.specs.Usual.{is_later, is_never, is_outside, is_odd, odd_at, is_cut};
ghost use Rattle.blocks.specs.Usual.{is_strange, strange_at, after_later, after_pairs, after_block};

// Whether b is no ASCII character that XML allows.
pub fn is_other(b: u8) -> bool
    ensures { result ≡ is_other b }
{
    ((b < 0x20) | (b >= 0x80)) & !((b == 0x9) | (b == 0xA) | (b == 0xD))
}

// Whether one of the 64 bytes from i on is not plain.
fn some_other64(s: &[u8], i: usize) -> bool
    requires { i + 64 ≤ length s.now }
    ensures { result ≡ some_of (λ k. is_other (get_or s.now (i + k) 0)) 64 }
{
    let mut found = false;
    for b in &s[i..i + 64] {
        found |= is_other(*b);
    }
    found
}

// Whether b goes on with a character.
fn is_later(b: u8) -> bool
    ensures { result ≡ is_later b }
{
    (0x80 <= b) & (b <= 0xBF)
}

// Whether a is in no usual character.
fn is_never(a: u8) -> bool
    ensures { result ≡ is_never a }
{
    ((a < 0x20) & !((a == 0x9) | (a == 0xA) | (a == 0xD)))
        | ((0xC0 <= a) & (a <= 0xC1))
        | (0xF1 <= a)
}

// Whether b is out of bounds after a: for an overlong form, a surrogate, or one of U+FFC0 to U+FFFF.
fn is_outside(a: u8, b: u8) -> bool
    ensures { result ≡ is_outside a b }
{
    ((a == 0xE0) & (b < 0xA0))
        | ((a == 0xED) & (0xA0 <= b))
        | ((a == 0xEF) & (b == 0xBF))
        | ((a == 0xF0) & (b < 0x90))
}

// Whether a is in no usual character, or b is out of bounds after it, or d goes on with a character and is not asked for, or the reverse.
fn is_odd(a: u8, b: u8, c: u8, d: u8) -> bool
    ensures { result ≡ is_odd a b c d }
{
    let asked = (0xF0 <= a) | (0xE0 <= b) | (0xC0 <= c);
    is_never(a) | is_outside(a, b) | (asked != is_later(d))
}

// Whether that is so at one of the 64 places from i on.
fn some_odd64(s: &[u8], i: usize) -> bool
    requires { i + 67 ≤ length s.now }
    ensures { result ≡ some_of (λ k. odd_at s.now (i + k)) 64 }
{
    // By places: over `windows(4)` it takes 1.06 times the instructions.
    let mut found = false;
    for j in 0..64 {
        found |= is_odd(s[i + j], s[i + j + 1], s[i + j + 2], s[i + j + 3]);
    }
    found
}

// Whether a goes on with a character, or b or c does and is not asked for, or the reverse.
fn is_cut(a: u8, b: u8, c: u8) -> bool
    ensures { result ≡ is_cut a b c }
{
    let asked = (0xE0 <= a) | (0xC0 <= b);
    is_later(a) | ((0xC0 <= a) != is_later(b)) | (asked != is_later(c))
}

// The place after the bytes from i on that go on with a character, up to three.
fn after_later(s: &[u8], i: usize) -> usize
    requires { i + 3 ≤ length s.now }
    ensures { result ≡ after_later s.now i }
{
    if !is_later(s[i]) {
        return i;
    }
    if !is_later(s[i + 1]) {
        return i + 1;
    }
    if !is_later(s[i + 2]) {
        return i + 2;
    }
    i + 3
}

// Whether a is in no character of one or two bytes, or b goes on with a character and is not asked for, or the reverse.
fn is_strange(a: u8, b: u8) -> bool
    ensures { result ≡ is_strange a b }
{
    is_never(a) | (0xE0 <= a) | ((0xC0 <= a) != is_later(b))
}

// Whether that is so at one of the 64 places from i on.
fn some_strange64(s: &[u8], i: usize) -> bool
    requires { i + 67 ≤ length s.now }
    ensures { result ≡ some_of (λ k. strange_at s.now (i + k)) 64 }
{
    // By places: over `windows(2)` it takes 1.12 times the instructions.
    let mut found = false;
    for j in 0..64 {
        found |= is_strange(s[i + j], s[i + j + 1]);
    }
    found
}

// The place after the 64 bytes from i on, and after the character that goes over their end, where all have one or two bytes; else i.
fn after_pairs(s: &[u8], i: usize) -> usize
    requires { i + 67 ≤ length s.now }
    ensures { result ≡ after_pairs s.now i }
{
    if is_later(s[i]) {
        return i;
    }
    if some_strange64(s, i) {
        return i;
    }
    if is_later(s[i + 64]) {
        return i + 65;
    }
    i + 64
}

// The place after the 64 bytes from i on, and after the character that goes over their end, where they are plain or all their characters
// are usual; else i. Where all have one or two bytes a shorter test says so.
pub fn after_block(s: &[u8], i: usize) -> usize
    requires { i + 67 ≤ length s.now }
    ensures { result ≡ after_block s.now i }
{
    if !some_other64(s, i) {
        return i + 64;
    }
    let e = after_pairs(s, i);
    if e != i {
        return e;
    }
    if is_cut(s[i], s[i + 1], s[i + 2]) {
        return i;
    }
    if some_odd64(s, i) {
        return i;
    }
    after_later(s, i + 64)
}
