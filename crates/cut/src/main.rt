// The program `cut` of document 01. It only reads and writes: what is printed is `told` of the crate `report`. What can't be read ends
// there: the bytes before it are the document, or the list. A write that fails ends the program with its error, and nothing else does.
//
//     standard input    the document, and one byte more than it may have, so that a longer one is told
//     paths.lst         the list, in the same way              a file that can't be opened: an empty list
//     standard output   what is told
#![tactic(auto)]

ghost use Rattle.std.specs.Prelude.{◌≤◌, length};

use intake::read_full;
use report::{INPUT, LIST, PRINTED, told};
use std::io::Write;
use std::rt::Files;
use std::{fs, io};

// Reads the list, as far as the buffer reaches, and gives its length.
fn read_list<R: Files>(rt: &R, buf: &mut [u8]) -> usize
    ensures { result ≤ length buf.new }
{
    match fs::open(rt, "paths.lst") {
        Ok(mut file) => {
            let (n, _) = read_full(&mut file, buf);
            n
        }
        Err(_) => 0,
    }
}

fn main(rt: HostRuntime) -> io::Result<()> {
    let mut doc = [0u8; INPUT];
    let (n, _) = read_full(&mut rt.reader(), &mut doc);
    let mut list = [0u8; LIST];
    let m = read_list(&rt, &mut list);
    let mut out = [0u8; PRINTED];
    io::writer(&rt).write_all(told(&list, m, &doc, n, &mut out))
}
