// Tries the matcher on random lists and on random walks through trees of names, round by round. Prints of each round its number; the list's
// bytes and their sum; how deep the walk went and the sum of the names' numbers; how many elements are not selected, selected and marked,
// and the sum of the verdicts. The file `stdout` has what is right: ordinary Rust in docs/src/expected makes it, with the same draws, by
// trying places for the steps of each path as documents 01 and 02 word it. A write that fails ends the program with its error, and nothing
// else does; what was written before it stays.
#![tactic(auto)]

mod draw; // numbers drawn, and sums
mod mode; // what a round is like
mod names; // names by number
mod list; // a list drawn
mod walk; // a walk drawn, and what the matcher says on the way

use arrayvec::ArrayString;
use compiled::compile::read;
use compiled::layout;
use draw::{Draws, fold};
use list::push_list;
use mode::{Mode, mode_of};
use std::io;
use std::io::Write;
use walk::walk;

const ROUNDS: usize = 400;

// The list is read, and what it says on a walk is printed.
fn tell<W: Write>(out: &mut W, list: &[u8], draws: Draws, m: Mode) -> io::Result<()> {
    let mut tables = [0u16; layout::LENGTH];
    let Ok(()) = read(list, &mut tables) else {
        return writeln!(out, " refused");
    };
    writeln!(out, " {}", walk(list, &tables, draws, m))
}

// A round: its list is drawn, and then its walk. Every list that is drawn has room and is sound.
fn round<W: Write>(out: &mut W, r: usize) -> io::Result<()> {
    let m = mode_of(r);
    let mut draws = Draws::new(r % 65536 * 7919);
    let mut text = ArrayString::new();
    let Ok(()) = push_list(&mut text, &mut draws, m) else {
        return Ok(());
    };
    let list = text.as_bytes();
    let sum = list.iter().fold(0, |sum, b| fold(sum, usize::from(*b)));
    write!(out, "round {r} {} {sum}", list.len())?;
    tell(out, list, draws, m)
}

fn main(rt: HostRuntime) -> io::Result<()> {
    let mut out = io::writer(&rt);
    for r in 0..ROUNDS {
        round(&mut out, r)?;
    }
    Ok(())
}
