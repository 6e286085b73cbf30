// What the libraries say of a text, each answer as one number; and a sum into which numbers are folded, so that one line stands for many
// cases.
use paths::ListError;

// 8 times the code point at the front and the size of its sequence; 0 where none stands there.
pub fn sequence(s: &[u8]) -> usize {
    match utf8::sequence_at(s, 0) {
        Some((c, e)) => c as usize * 8 + e % 8,
        None => 0,
    }
}

// 0 where all are characters, and else one more than the offset of the first fault.
pub fn checked(s: &[u8]) -> usize {
    match chars::whole::check(s) {
        Ok(()) => 0,
        Err(e) => e.valid_up_to % 0x10000 + 1,
    }
}

// The end of the name at a place, 0 where there is none.
pub fn named(s: &[u8], at: usize) -> usize {
    match chars::name::name(s, at) {
        Some(e) => e,
        None => 0,
    }
}

// The answer on a path list: 64 times its number, and its second number.
pub fn listed(list: &[u8]) -> usize {
    match paths::answer(list) {
        Ok(()) => 0,
        Err(ListError::TooLong) => 64,
        Err(ListError::Malformed(line)) => 128 + line % 64,
        Err(ListError::TooLarge(line)) => 192 + line % 64,
    }
}

// 31 times the sum and x, modulo 2^32.
pub fn fold(sum: usize, x: usize) -> usize {
    (sum % 0x100000000 * 31 + x % 0x100000000) % 0x100000000
}
