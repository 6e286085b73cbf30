// Every code point from 0 on to some past the last, surrogates too, in the bytes that a plain encoder makes of it. A line for each one
// where an answer differs from the one before: whether a sequence stands there that has this code point and this length, whether all is
// characters, the class, whether it is a name, and whether it is one after a letter.
ghost use Rattle.std.specs.Prelude.{◌≤◌};
ghost use Rattle.arrayvec.specs.ArrayVec.{array_vec_len};

use crate::answers;
use arrayvec::ArrayVec;
use points::class::Classes;
use std::io;
use std::io::Write;

const LAST: u32 = 0x110010;

// A second, third or fourth byte: the last six bits of x.
fn later(x: u32) -> u8 {
    0x80 + (x % 0x40) as u8
}

// A letter and the bytes of a code point.
fn encoded(c: u32) -> ArrayVec<u8, 5>
    ensures { (2 ≤ array_vec_len result) × (array_vec_len result ≤ 5) }
{
    let x = later(c / 0x1000);
    let y = later(c / 0x40);
    let z = later(c);
    let mut bytes = ArrayVec::new();
    bytes.push(b'a');
    if c < 0x80 {
        bytes.push(c as u8);
        return bytes;
    }
    if c < 0x800 {
        bytes.push(0xC0 + (c / 0x40) as u8);
        bytes.push(z);
        return bytes;
    }
    if c < 0x10000 {
        bytes.push(0xE0 + (c / 0x1000) as u8);
        bytes.push(y);
        bytes.push(z);
        return bytes;
    }
    bytes.push(0xF0 + (c / 0x40000 % 8) as u8);
    bytes.push(x);
    bytes.push(y);
    bytes.push(z);
    bytes
}

fn is_name(classes: &Classes, s: &[u8]) -> bool {
    match chars::name::name_by(classes, s, 0) {
        Some(e) => e == s.len(),
        None => false,
    }
}

// Some digits, and one more.
fn digit(digits: u32, x: u8) -> u32 {
    digits % 10000 * 10 + u32::from(x % 10)
}

// What is seen of c, a digit for each answer.
fn look(classes: &Classes, c: u32) -> u32 {
    let bytes = encoded(c);
    let named = bytes.as_slice();
    let s = &named[1..];
    let seen = [
        u8::from(answers::sequence(s) == c as usize * 8 + s.len()),
        u8::from(answers::checked(s) == 0),
        classes.class_of(c) as u8,
        u8::from(is_name(classes, s)),
        u8::from(is_name(classes, named)),
    ];
    // By `iter`: an array that is given away is laid into another one first, and `look` takes 1.8 times the instructions.
    seen.iter().copied().fold(0, digit)
}

fn lines<W: Write>(out: &mut W, classes: &Classes) -> io::Result<()> {
    let mut last = look(classes, 0);
    writeln!(out, "0000 {last}")?;
    for c in 1..=LAST {
        let next = look(classes, c);
        if next != last {
            writeln!(out, "{c:04x} {next}")?;
        }
        last = next;
    }
    Ok(())
}

pub fn print<W: Write>(out: &mut W) -> io::Result<()> {
    writeln!(
        out,
        "code point; a digit each: sequence, Char, class, a name, a name after a letter"
    )?;
    let classes = Classes::new();
    lines(out, &classes)
}
