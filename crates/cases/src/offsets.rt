// Texts of each length up to 200 with a few bytes planted at each place: faults, and sequences that are none. What the check says of them
// is folded into one number for each kind; a second number has the same texts with a control byte at the end of each.
use crate::{answers, out};
use std::io::Write;
use std::{array, io};

const LONGEST: usize = 200;

// What is planted: bytes that begin no character, or one that is cut off by what follows or by the end; a control byte, an overlong form, a
// surrogate, a code point that is no Char, and one past the last; characters of each size; a character with a fault after it.
const KINDS: [&[u8]; 18] = [
    b"\x80",
    b"\xC3",
    b"\xE2\x82",
    b"\xF0\x9F\x98",
    b"\x01",
    b"\xC0\x80",
    b"\xED\xA0\x80",
    b"\xEF\xBF\xBE",
    b"\xF4\x90\x80\x80",
    b"\x7F",
    b"\xC3\xA9",
    b"\xE2\x82\xAC",
    b"\xEF\xBF\xBD",
    b"\xF0\x9F\x98\x80",
    b"\xC3\xA9\x80",
    b"\xE2\x82\xAC\xE2\x82",
    b"\xF0\x9F\x98\x80\xED\xA0\x80",
    b"\xC3\xA9plain bytes\x01",
];

// The byte at a place of a text with no fault: every ASCII character that XML allows, one after the other.
fn plain(i: usize) -> u8 {
    let k = (i % 99) as u8;
    match k {
        0 => 0x9,
        1 => 0xA,
        2 => 0xD,
        _ => 0x1D + k,
    }
}

// Plants a kind at the front of a text, as far as there is room.
fn plant(text: &mut [u8], kind: &[u8]) {
    for (place, byte) in text.iter_mut().zip(kind) {
        *place = *byte;
    }
}

// The two numbers of a kind: the text as it is, and with a control byte at its end.
#[derive(Drop)]
struct Folded {
    alone: usize,
    ended: usize,
}

// The answers with the kind at each place of a text of each length.
fn try_all(kind: &[u8]) -> Folded {
    let plain: [u8; LONGEST] = array::from_fn(plain);
    let mut alone = 0;
    let mut ended = 0;
    for n in 1..=LONGEST {
        for at in 0..n {
            let mut whole = plain;
            let text = &mut whole[..n];
            plant(&mut text[at..], kind);
            alone = answers::fold(alone, answers::checked(text));
            text[n - 1] = 1;
            ended = answers::fold(ended, answers::checked(text));
        }
    }
    Folded { alone, ended }
}

fn show<W: Write>(out: &mut W, kind: &[u8]) -> io::Result<()> {
    let Folded { alone, ended } = try_all(kind);
    out::bytes(out, kind)?;
    writeln!(out, " {alone} {ended}")
}

pub fn print<W: Write>(out: &mut W) -> io::Result<()> {
    writeln!(
        out,
        "planted bytes, the check's answers, and with a control byte at the end"
    )?;
    for kind in KINDS {
        show(out, kind)?;
    }
    Ok(())
}
