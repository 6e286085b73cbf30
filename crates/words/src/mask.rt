// Masks: bit 7 of a mask's byte is set where that byte of a word is of a kind, and no other bit is. Each byte is treated apart: no sum of
// two bytes carries into the next.
//
//   bytes   p  a  r  t  <  b  C3 BC    the low seven bits beside `<`, 3C: `^` leaves 0 where they are equal, and a sum with 7F sets bit 7
//   mask    00 00 00 00 80 00 00 00    of all others; BC has the low bits of `<`, but is none, since its own bit 7 is set
ghost use Rattle.std.specs.Prelude.{◌≡◌, ◌<◌};
ghost use Rattle.words.specs.Word.{bytes_of, marks_of, one_of, is_no_name};

const LOW: u64 = 0x7F7F_7F7F_7F7F_7F7F;

const HIGH: u64 = 0x8080_8080_8080_8080;

const ONES: u64 = 0x0101_0101_0101_0101;

// The mask of the bytes that are a, b or c, which are ASCII.
pub fn marks(w: u64, a: u8, b: u8, c: u8) -> u64
    requires { (a < 0x80) × (b < 0x80) × (c < 0x80) }
    ensures { result ≡ marks_of (one_of a b c) (bytes_of 8 w) }
{
    let low = w & LOW;
    let others = ((low ^ (ONES * (a as u64))) + LOW)
        & ((low ^ (ONES * (b as u64))) + LOW)
        & ((low ^ (ONES * (c as u64))) + LOW);
    !(w | others) & HIGH
}

// The mask of the bytes that are no ASCII name characters. These are the letters, in either case; `-` to `:` but `/`; and `_`. A sum with
// 0x80 - x sets bit 7 where the low seven bits are x or more: x is `a` and `{`, the byte after `z`; `-` and `;`, the byte after `:`.
pub fn name_ends(w: u64) -> u64
    ensures { result ≡ marks_of is_no_name (bytes_of 8 w) }
{
    let ascii = w & LOW;
    let small = ascii | 0x2020_2020_2020_2020;
    let letters = (small + 0x1F1F_1F1F_1F1F_1F1F) & !(small + 0x0505_0505_0505_0505);
    let digits = (ascii + 0x5353_5353_5353_5353)
        & !(ascii + 0x4545_4545_4545_4545)
        & ((ascii ^ 0x2F2F_2F2F_2F2F_2F2F) + LOW);
    let lines = !((ascii ^ 0x5F5F_5F5F_5F5F_5F5F) + LOW);
    (!(letters | digits | lines) | w) & HIGH
}
