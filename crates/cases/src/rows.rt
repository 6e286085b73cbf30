// Every byte at the second, the third and the fourth place of a sequence, after each first byte: the sequences that stand there, folded
// into a number. A line for each first byte whose number is not that of the one before.
use crate::answers;
use std::io;
use std::io::Write;

// Second bytes: no later byte, and the borders of the ranges that some first byte allows.
const SECONDS: [u8; 8] = [0x00, 0x80, 0x8F, 0x90, 0x9F, 0xA0, 0xBF, 0xFF];

// The bytes after it: the first later byte and the last.
const TAILS: [u8; 2] = [0x80, 0xBF];

// All bytes at each place after a first byte, where else a second byte and a tail stand.
fn folded(first: u8) -> usize {
    let mut sum = 0;
    for place in 1..4 {
        for tail in TAILS {
            for second in SECONDS {
                for byte in 0..=u8::MAX {
                    let mut s = [first, second, tail, tail];
                    s[place] = byte;
                    sum = answers::fold(sum, answers::sequence(&s) % 8);
                }
            }
        }
    }
    sum
}

pub fn print<W: Write>(out: &mut W) -> io::Result<()> {
    writeln!(
        out,
        "first byte, and the sequences with each byte at each place after it"
    )?;
    let mut last = 0;
    for first in 0..=u8::MAX {
        let next = folded(first);
        if next != last {
            writeln!(out, "{first:02x} {next}")?;
        }
        last = next;
    }
    Ok(())
}
