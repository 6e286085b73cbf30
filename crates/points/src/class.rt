// The classes of name characters: 2 starts a name, 1 only goes on with one, 0 does neither. `Classes` is the lent table: code points below
// U+0300 are classed by its bits, the others by the ranges of productions [4] and [4a].
ghost use Rattle.std.specs.Prelude.{◌≡◌, List, ℕ, ◌<◌, ◌≤◌};
ghost use Rattle.xml.specs.Productions.{is_name_start, is_name};
ghost use Rattle.points.specs.Class.{class_of, class_table, bit_at, pairs};

use crate::table::{CLASS, CLASS_BYTES, CLASSED};
use std::marker::Model;

// The ranges of [4] NameStartChar, and those that [4a] NameChar adds: a first and a last code point each.
const START: [(u32, u32); 16] = [
    (0x3A, 0x3A),
    (0x41, 0x5A),
    (0x5F, 0x5F),
    (0x61, 0x7A),
    (0xC0, 0xD6),
    (0xD8, 0xF6),
    (0xF8, 0x2FF),
    (0x370, 0x37D),
    (0x37F, 0x1FFF),
    (0x200C, 0x200D),
    (0x2070, 0x218F),
    (0x2C00, 0x2FEF),
    (0x3001, 0xD7FF),
    (0xF900, 0xFDCF),
    (0xFDF0, 0xFFFD),
    (0x10000, 0xEFFFF),
];

const MORE: [(u32, u32); 6] = [
    (0x2D, 0x2D),
    (0x2E, 0x2E),
    (0x30, 0x39),
    (0xB7, 0xB7),
    (0x300, 0x36F),
    (0x203F, 0x2040),
];

// Whether c lies in one of the ranges.
fn in_ranges(ranges: &[(u32, u32)], c: u32) -> bool
    ensures { result ≡ pairs ranges.now c }
{
    ranges.iter().any(|&(first, last)| first <= c && c <= last)
}

// The bit of a code point below U+0300, in the class whose bytes begin at a place of the table.
fn bit_at(bits: &[u8; 2 * CLASS_BYTES], from: usize, c: usize) -> u8
    requires { (from ≤ 96) × (c < 768) }
    ensures { result ≡ bit_at bits.now from c }
{
    (bits[from + c / 8] >> (c % 8)) % 2
}

// The table of name classes, lent to whatever reads names. A clause sees its 192 bytes; that they are `class_table` holds of each value of
// the type, so that no function asks it of what it is lent.
#[derive(Clone, Copy, Debug, PartialEq, Eq, PartialOrd, Ord, Hash)]
pub struct Classes {
    bits: [u8; 2 * CLASS_BYTES],
}

impl Model for Classes {
    ghost Value = { List ℕ };

    ghost view = { λ t. t.bits };

    ghost inverse = { λ b. record { bits = b } };

    ghost invariant = { λ t. t.bits ≡ class_table };
}

impl Classes {
    // The table of the constant.
    pub fn new() -> Classes
        ensures { result ≡ class_table }
    {
        Classes { bits: CLASS }
    }

    // Whether a code point starts a name.
    pub fn starts(&self, c: u32) -> bool
        ensures { result ≡ is_name_start c }
    {
        let k = c as usize;
        if k < CLASSED {
            return bit_at(&self.bits, 0, k) == 1;
        }
        in_ranges(&START, c)
    }

    // Whether a code point goes on with a name.
    pub fn goes_on(&self, c: u32) -> bool
        ensures { result ≡ is_name c }
    {
        let k = c as usize;
        if k < CLASSED {
            return bit_at(&self.bits, CLASS_BYTES, k) == 1;
        }
        if in_ranges(&START, c) {
            return true;
        }
        in_ranges(&MORE, c)
    }

    // The class of a code point.
    pub fn class_of(&self, c: u32) -> u8
        ensures { result ≡ class_of c }
    {
        if self.starts(c) {
            return 2;
        }
        if self.goes_on(c) {
            return 1;
        }
        0
    }
}
