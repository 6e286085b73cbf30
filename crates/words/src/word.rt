// Words: eight bytes of a slice as one number, the first byte the lowest; and the first byte of a number that is not 0.
//
//   bytes   p  a  r  t     <  b  r     as a number 0x72_62_3C_20_74_72_61_70: what stands first is lowest,
//                                      so the zeros below a number's lowest bit tell its first byte that is not 0
ghost use Rattle.std.specs.Prelude.{◌≡◌, ◌+◌, ◌≤◌, length, take, drop};
ghost use Rattle.words.specs.Word.{number_of, bytes_of, before, is_set};

// The number of the 8 bytes from i on.
pub fn word_at(s: &[u8], i: usize) -> u64
    requires { i + 8 ≤ length s.now }
    ensures { result ≡ number_of (take 8 (drop i s.now)) }
{
    u64::from_le_bytes(s[i..i + 8].try_into().unwrap())
}

// How many bytes of a word stand before the first that is not 0; 8 where all are 0.
pub fn first(m: u64) -> usize
    ensures { result ≡ before is_set (bytes_of 8 m) }
{
    (u64::trailing_zeros(m) / 8) as usize
}
