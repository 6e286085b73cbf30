// Whether every path of a narrow list is covered by one of a wide list: what is said of two lists. What covering means is in
// specs/Cover.antt, and what is answered in specs/Answer.antt.
#![tactic(auto)]

ghost use Rattle.std.specs.Prelude.{◌≡◌, Ok};
ghost use Rattle.paths.specs.Judge.{list_answer, list_paths};
ghost use Rattle.matcher.specs.Fit.{Serves};
ghost use Rattle.covers.specs.Test.{covered};
ghost use Rattle.covers.specs.Answer.{of_list, refusal_or, cover_answer};
ghost use Rattle.covers.specs.declared.Which.TheVariants.{Wide};

use crate::line::{line_at, lines_of};
use crate::sending::sent_bits;
use crate::standing::some_stands;
use compiled::compile::read;
use compiled::{Compiled, layout};
use paths::{ListError, answer};

mod line; // the lines of a list, by places
mod sending; // which wide paths have steps that can be sent to a narrow path's
mod standing; // which wide paths stand for a narrow one

// The list that a refusal is about.
#[derive(Clone, Copy, Debug, PartialEq, Eq)]
pub enum Which {
    Narrow,
    Wide,
}

// The refusal of one of two lists.
#[derive(Clone, Copy, Debug, PartialEq, Eq)]
pub struct CoverError {
    pub which: Which,
    pub error: ListError,
}

// Whether every path of a sound narrow list is covered by a wide one, marked if it is. A narrow list without a path is.
fn every(narrow: &[u8], wide: &[u8], t: &Compiled) -> bool
    requires { (list_answer narrow.now ≡ Ok tt) × Serves wide.now t.now }
    ensures { result ≡ covered (list_paths narrow.now) (list_paths wide.now) }
{
    let lines = lines_of(wide);
    let count = lines.count;
    let wide_lines = &lines.all[..count];
    let mut at: usize = 0;
    // Each turn goes on where the line before ended, so the place is no count.
    while at < narrow.len() {
        let line = line_at(narrow, at);
        let sent = sent_bits(narrow, at, wide, t);
        if !some_stands(narrow, line, wide, wide_lines, sent) {
            return false;
        }
        at = line.next;
    }
    true
}

// What is said of one of two lists, with the list in its refusal.
fn of_list(which: Which, said: Result<(), ListError>) -> Result<(), CoverError>
    ensures { result ≡ of_list which said }
{
    said.map_err(|error| CoverError { which, error })
}

// What is said where the narrow list is sound.
fn by_wide(narrow: &[u8], wide: &[u8]) -> Result<bool, CoverError>
    requires { list_answer narrow.now ≡ Ok tt }
    ensures { result ≡ refusal_or Wide (list_answer wide.now)
        (Ok (covered (list_paths narrow.now) (list_paths wide.now))) }
{
    let mut t = [0u16; layout::LENGTH];
    of_list(Which::Wide, read(wide, &mut t))?;
    Ok(every(narrow, wide, &t))
}

// Whether every narrow path is covered, of any two lists: the narrow one is judged first, then the wide one.
#[tactic(auto, unfolding(crate::specs::Answer::cover_answer))]
pub fn covers(narrow: &[u8], wide: &[u8]) -> Result<bool, CoverError>
    ensures { result ≡ cover_answer narrow.now wide.now }
{
    of_list(Which::Narrow, answer(narrow))?;
    by_wide(narrow, wide)
}
