// A pack's cases. Each is a head of five numbers of two bytes, the lower byte first, and then the bytes that the case adds:
//
//     how much of the list before it keeps    how many bytes it adds to that    the same two of the document    the room
//
// So a case that begins as the one before costs little. A pack ends where the file does, or at a head that asks for more than there is.
ghost use Rattle.std.specs.Prelude.{◌≤◌, length};

use super::digest;
use exported::FourNumbers;
use intake::read_full;
use std::io;
use std::io::{Read, Write};

const HEAD: usize = 10;

// The most bytes of a list, of a document and of the room.
const LIST: usize = 16384;

const DOCUMENT: usize = 65536;

const ROOM: usize = 65536;

// A number of two bytes.
fn number(low: u8, high: u8) -> usize {
    usize::from(u16::from_le_bytes([low, high]))
}

// Puts so many bytes of the pack after the front that is kept, and gives both. What does not fit is not read.
fn extended<'a, R: Read>(pack: &mut R, text: &'a mut [u8], keep: usize, more: usize) -> &'a [u8]
    ensures { length result.now ≤ length text.old }
{
    if keep > text.len() {
        return &[];
    }
    if more > text.len() - keep {
        return &text[..keep];
    }
    let (added, _) = read_full(pack, &mut text[keep..keep + more]);
    &text[..keep + added]
}

// A line: four numbers in decimal, and the digest.
fn print<W: Write>(out: &mut W, numbers: FourNumbers, digest: u32) -> io::Result<()> {
    let FourNumbers {
        number,
        second,
        third,
        fourth,
    } = numbers;
    writeln!(out, "{number} {second} {third} {fourth} {digest:08x}")
}

// One call, and its line.
fn tell<W: Write>(out: &mut W, list: &[u8], doc: &[u8], room: &mut [u8]) -> io::Result<()> {
    digest::prepare(room);
    let numbers = exported::choughbell_cut(list, doc, room);
    print(out, numbers, digest::crc(room))
}

// The same, with so much of the buffer.
fn tell_in<W: Write>(
    out: &mut W,
    list: &[u8],
    doc: &[u8],
    buf: &mut [u8],
    room: usize,
) -> io::Result<()> {
    if room <= buf.len() {
        return tell(out, list, doc, &mut buf[..room]);
    }
    Ok(())
}

// Reads what the case of a head adds, and tells of it.
fn read<R: Read, W: Write>(
    pack: &mut R,
    out: &mut W,
    head: &[u8; HEAD],
    list: &mut [u8],
    doc: &mut [u8],
    buf: &mut [u8],
) -> io::Result<()> {
    let list = extended(
        pack,
        list,
        number(head[0], head[1]),
        number(head[2], head[3]),
    );
    let doc = extended(
        pack,
        doc,
        number(head[4], head[5]),
        number(head[6], head[7]),
    );
    tell_in(out, list, doc, buf, number(head[8], head[9]))
}

// Reads a case and tells of it, if there is one.
fn told<R: Read, W: Write>(
    pack: &mut R,
    out: &mut W,
    list: &mut [u8],
    doc: &mut [u8],
    buf: &mut [u8],
) -> io::Result<bool> {
    let mut head = [0u8; HEAD];
    let (there, _) = read_full(pack, &mut head);
    if there < HEAD {
        return Ok(false);
    }
    read(pack, out, &head, list, doc, buf)?;
    Ok(true)
}

// All cases of a pack. A loop has to end and a file need not, so turns are counted up to a number that none reaches.
pub fn cases<R: Read, W: Write>(pack: &mut R, out: &mut W) -> io::Result<()> {
    let mut list = [0u8; LIST];
    let mut doc = [0u8; DOCUMENT];
    let mut buf = [0u8; ROOM];
    for _ in 0..u64::MAX {
        if !told(pack, out, &mut list, &mut doc, &mut buf)? {
            break;
        }
    }
    Ok(())
}
