// Runs the libraries on many cases and prints what they find. The file `stdout` has what is right: ordinary Rust in docs/src/expected makes
// it, from the standard library, the Recommendation's ranges and the words of document 01, with nothing of Rattle. A write that fails ends
// the program with its error, and nothing else does; what was written before it stays.
#![tactic(auto)]

mod out; // bytes, written in hexadecimal
mod answers; // what the libraries say of a text, as numbers, and a sum of them
mod borders; // every code point: where an answer changes
mod rows; // every byte at each place of a sequence
mod offsets; // a fault at each place of texts of each length
mod texts; // names, white space and path lists in chosen texts
mod sizes; // path lists at the sizes and past them

use std::io;

fn main(rt: HostRuntime) -> io::Result<()> {
    let mut out = io::writer(&rt);
    borders::print(&mut out)?;
    rows::print(&mut out)?;
    offsets::print(&mut out)?;
    texts::print(&mut out)?;
    sizes::print(&mut out)
}
