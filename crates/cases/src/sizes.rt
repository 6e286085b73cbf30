// Path lists at the sizes and past them: each a piece, another one n times and a last one, for five n from some number on. A line has the
// row of the list, n, and what is answered.
use crate::answers;
use arrayvec::{ArrayVec, CapacityError};
use std::io;
use std::io::Write;

// More bytes than any of the lists has.
const ROOM: usize = 8200;

// Each row: the piece, the other one, from which n on, and the last.
const ROWS: [(&[u8], &[u8], u16, &[u8]); 20] = [
    // lines, from 0 and from 30 on; lines and a malformed one
    (b"", b"/a\n", 0, b""),
    (b"", b"/a\n", 30, b""),
    (b"", b"/a\n", 30, b"a\n"),
    // steps; steps, malformed
    (b"", b"/a", 14, b"\n"),
    (b"", b"/a", 14, b" \n"),
    // bytes of a name; two bytes each of a name; bytes after a line
    (b"/", b"n", 253, b"\n"),
    (b"/n", b"\xC3\xA9", 125, b"\n"),
    (b"/a\n", b"x", 8187, b""),
    // bytes of a name behind the two longer kinds of step; steps of these kinds
    (b"/self::", b"n", 253, b"\n"),
    (b"/descendant-or-self::", b"n", 253, b"\n"),
    (b"", b"/self::a", 14, b" #\n"),
    (b"//b", b"/descendant-or-self::*", 13, b"\n"),
    // a name with two colons; a name that begins with one
    (b"/", b"n", 252, b"::\n"),
    (b"/self:::", b"n", 252, b"\n"),
    // bytes of a test's name, and of its value; two and three bytes each of a value
    (b"/a[@", b"n", 253, b"=\"x\"]\n"),
    (b"/a[@k=\"", b"n", 253, b"\"]\n"),
    (b"/a[@k=\"n", b"\xC3\xA9", 125, b"\"] #\n"),
    (b"/*[@k=\"", b"\xE2\x82\xAC", 83, b"\"]\n"),
    // a value with `<` at its end; steps and a test
    (b"/a[@k=\"", b"n", 253, b"<\"]\n"),
    (b"", b"/a", 14, b"[@k=\"x\"]\n"),
];

// Adds a piece, another one n times and a last one; an error where one of them has no room. The list is lent: one that is handed back is
// copied.
fn extend(
    list: &mut ArrayVec<u8, ROOM>,
    first: &[u8],
    piece: &[u8],
    n: usize,
    last: &[u8],
) -> Result<(), CapacityError> {
    list.try_extend_from_slice(first)?;
    for _ in 0..n {
        list.try_extend_from_slice(piece)?;
    }
    list.try_extend_from_slice(last)
}

pub fn print<W: Write>(out: &mut W) -> io::Result<()> {
    writeln!(
        out,
        "list, how often its piece stands there, and what is answered"
    )?;
    for (row, (first, piece, from, last)) in ROWS.iter().enumerate() {
        let from = usize::from(*from);
        for n in from..from + 5 {
            let mut list = ArrayVec::new();
            if extend(&mut list, first, piece, n, last).is_ok() {
                let code = answers::listed(list.as_slice());
                writeln!(out, " {row} {n} {} {}", code / 64, code % 64)?;
            }
        }
    }
    Ok(())
}
