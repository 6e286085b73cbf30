// Chosen texts, names and path lists: where the name at place 0 and at place 1 ends, or 0; where the white space ends from place 0 and from
// a place past the end; the answer on the text as a list. Then two numbers into which all answers are folded: with each byte replaced in
// turn, and cut off after each byte.
use crate::{answers, out};
use arrayvec::ArrayVec;
use chars::space::after_space;
use std::io;
use std::io::Write;

// The most bytes of a text whose bytes are replaced; each of those below has fewer.
const LONGEST: usize = 256;

// Bytes that stand for each byte in turn.
const OTHERS: [u8; 27] = [
    b'/', b'*', b' ', b'#', b'\n', b'a', b'1', b'-', b':', b'.', b'\r', 0x00, 0xC3, 0xA9, 0xCC,
    0x80, 0xFF, b'[', b'@', b'=', b'"', b']', b'<', b'&', b'\'', 0x1F, 0x7F,
];

const TEXTS: [&[u8]; 74] = [
    // ASCII
    b"a",
    b"report",
    b"_1.2-3",
    b":",
    b"a:b:c",
    b"-a",
    b".a",
    b"1a",
    b"a b",
    b"a=",
    b"a/>",
    b"a\x00b",
    b"a@[`{",
    // U+E9, and the same as a letter and U+301; U+300 first; U+B7, U+D7, U+F7, U+37E
    b"\xC3\xA9t\xC3\xA9",
    b"e\xCC\x81te",
    b"\xCC\x80a",
    b"a\xC2\xB7b",
    b"\xC2\xB7",
    b"a\xC3\x97b",
    b"a\xC3\xB7b",
    b"a\xCD\xBEb",
    // U+2C00, U+3000, U+3001, U+203F, U+10000 and U+EFFFF, U+F0000
    b"\xE2\xB0\x80",
    b"\xE3\x80\x80a",
    b"\xE3\x80\x81\xE3\x80\x80",
    b"a\xE2\x80\xBFb",
    b"\xF0\x90\x80\x80\xF3\xAF\xBF\xBF",
    b"a\xF3\xB0\x80\x80",
    // nothing; bytes that begin nothing; sequences that are cut off
    b"",
    b"\x80",
    b"ab\xFFcd",
    b"ab\xC3",
    b"ab\xE2\xB0",
    b"ab\xF0\x90\x80b",
    // overlong forms of a letter, a surrogate, U+FFFE, a code point past the last
    b"a\xC1\xA1b",
    b"a\xE0\x81\xA1b",
    b"a\xED\xA0\x80b",
    b"a\xEF\xBF\xBEb",
    b"a\xF4\x90\x80\x80b",
    // white space, and what is none: U+B, U+C, U+A0, U+2003
    b"\x20",
    b" a",
    b"\t\r\n a b",
    b"\x0B\x0C",
    b"\xC2\xA0 ",
    b"\xE2\x80\x83a",
    b" \x00 ",
    // path lists
    b"/a\n",
    b"//a\n",
    b"/*\n",
    b"/a #\n",
    b"//b/*//c #\n/d\n",
    b"/g/p/v\n//n #\n//v//n\n",
    b"/\xC3\xA9/e\xCC\x81\n",
    b"/:a/_b-1.2\n//*/x #\n",
    b"/self::p\n",
    b"/self:::p #\n",
    b"/descendant-or-self::*/a\n",
    b"/a/descendant-or-self::b:c/self::*\n",
    b"//self:p/self\n",
    b"/self::self::p\n",
    b"//self::p\n",
    b"/a\n/b::c\n",
    b"/child::p/Self::p\n",
    b"/self::\xC3\xA9:e\xCC\x81::\n",
    // path lists with tests of an attribute
    b"/a[@k=\"x\"]\n",
    b"//place[@type=\"village\"] #\n",
    b"/*[@a::b=\"\"]\n",
    b"/a/self::*[@k=\" #\"] #\n/b\n",
    b"/descendant-or-self::\xC3\xA9[@e\xCC\x81=\"\xC3\xA9 e\xCC\x81\x7F\xC2\x85\"]\n",
    b"/a\n//b[@k=\"]'[@l='>/\"]\n",
    b"/a[@k=\"x\"]/b\n",
    b"/a[@k=\"x\"][@l=\"y\"]\n",
    b"/a[@k='x']\n",
    b"/a[@k=\"a<b\"]\n",
    b"/a[@k=\"&amp;\"] #\n",
];

// All answers on a text, folded into a sum.
fn fold_all(sum: usize, s: &[u8]) -> usize {
    [
        answers::checked(s),
        answers::named(s, 0),
        answers::named(s, 1),
        after_space(s, 0),
        answers::listed(s),
    ]
    .into_iter()
    .fold(sum, answers::fold)
}

// A text with each byte replaced in turn.
fn replaced(mut text: ArrayVec<u8, LONGEST>) -> usize {
    let text = text.as_mut_slice();
    let mut sum = 0;
    for i in 0..text.len() {
        let byte = text[i];
        for other in OTHERS {
            text[i] = other;
            sum = fold_all(sum, text);
        }
        text[i] = byte;
    }
    sum
}

// A text cut off after each byte.
fn cut_off(s: &[u8]) -> usize {
    (0..s.len()).fold(0, |sum, n| fold_all(sum, &s[..n]))
}

fn ends<W: Write>(out: &mut W, s: &[u8]) -> io::Result<()> {
    write!(out, " {} {}", answers::named(s, 0), answers::named(s, 1))?;
    write!(out, " {} {}", after_space(s, 0), after_space(s, 100))
}

fn show<W: Write>(out: &mut W, s: &[u8]) -> io::Result<()> {
    out::bytes(out, s)?;
    ends(out, s)?;
    let code = answers::listed(s);
    write!(out, " {} {}", code / 64, code % 64)?;
    if let Ok(text) = ArrayVec::try_from(s) {
        write!(out, " {}", replaced(text))?;
    }
    writeln!(out, " {}", cut_off(s))
}

pub fn print<W: Write>(out: &mut W) -> io::Result<()> {
    writeln!(
        out,
        "bytes; name ends from 0, 1; space ends from 0, 100; as a list; replaced, cut off"
    )?;
    for text in TEXTS {
        show(out, text)?;
    }
    Ok(())
}
