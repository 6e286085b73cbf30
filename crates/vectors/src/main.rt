// Cuts the cases of three packs and prints what each answer is: number, second, third and fourth, and a digest of the whole buffer
// afterwards. The file `stdout` has what is right: the second program, docs/src/second, makes it from the same packs. A write that fails
// ends the program with its error, and nothing else does; what was written before it stays.
//
//     suite    the files of the W3C's conformance suite that have no document type
//     named    cases chosen by hand
//     made     cases from a seeded generator
#![tactic(auto)]

mod digest; // what a buffer holds, before the call and after it
mod pack; // a pack's cases, one after the other

use std::io::Write;
use std::rt::Files;
use std::{fs, io};

// A line with the pack's name, then one for each case. A pack that can't be opened has none.
fn tell<R: Files, W: Write>(rt: &R, out: &mut W, name: &str) -> io::Result<()> {
    writeln!(out, "{name}")?;
    match fs::open(rt, name) {
        Ok(mut file) => pack::cases(&mut file, out),
        Err(_) => Ok(()),
    }
}

fn main(rt: HostRuntime) -> io::Result<()> {
    let mut out = io::writer(&rt);
    tell(&rt, &mut out, "suite")?;
    tell(&rt, &mut out, "named")?;
    tell(&rt, &mut out, "made")
}
