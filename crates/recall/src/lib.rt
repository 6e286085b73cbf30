// What is known of an element that was matched before: one with a name of the same row, below the same state. A pass keeps some of these
// and asks again before it matches, since most elements of a document stand where others like them stood.
//
//     row, parent      what it goes by: the row of the name, and the state of the parent
//     below            the state below such an element
//     verdict, tests   what the list says of it by its name, and how many name tests are tried there, where they are counted
//
// What is made anew is what is known again, so only the time depends on what is kept. The definitions are in specs/Known.antt.
#![tactic(auto)]

ghost use Rattle.std.specs.Prelude.{◌≡◌, ◌+◌, ◌*◌, ◌%◌, ◌≤◌, ◌<◌};
ghost use Rattle.recall.specs.Known.{is_of, tests_in, known_of, unknown, Recalls};

use compiled::{Compiled, layout};
use matcher::Verdict;
use matcher::fit::fit_by;
use matcher::state::MatchState;

#[derive(Clone, Copy)]
pub struct Known {
    pub row: usize,
    pub parent: MatchState,
    pub below: MatchState,
    pub verdict: Verdict,
    pub tests: u32,
}

// The name tests tried at an element of this row, where they are counted; else 0.
fn counted(counts: bool, t: &Compiled, row: usize, parent: MatchState) -> u32
    requires { row ≤ 512 }
    ensures { (result ≡ tests_in counts t.now row parent) × (result ≤ 512) }
{
    if counts {
        let fit = fit_by(t, row);
        return parent.tests_on(fit);
    }
    0
}

impl Known {
    // How many of these a pass keeps.
    pub const KEPT: usize = 64;

    // Of no row: nothing is known yet.
    #[tactic(auto, unfolding(crate::specs::Known::unknown))]
    pub fn nothing() -> Known
        ensures { result ≡ unknown }
    {
        let fresh = MatchState::fresh();
        Known {
            row: layout::NAMES + 1,
            parent: fresh,
            below: fresh,
            verdict: Verdict::Unselected,
            tests: 0,
        }
    }

    // Whether it is of this row and this state.
    pub fn is_of(self, row: usize, parent: MatchState) -> bool
        ensures { result ≡ is_of self row parent }
    {
        self.row == row && parent.same(self.parent)
    }

    // What is known of an element of this row below this state, made anew.
    #[tactic(auto, unfolding(crate::specs::Known::known_of))]
    pub fn made(counts: bool, t: &Compiled, row: usize, parent: MatchState) -> Known
        requires { row ≤ 512 }
        ensures { (result ≡ known_of counts t.now row parent) × (result.tests ≤ 512) }
    {
        let fit = fit_by(t, row);
        let below = parent.deeper(fit);
        let verdict = parent.verdict_on(fit);
        let tests = counted(counts, t, row, parent);
        Known {
            row,
            parent,
            below,
            verdict,
            tests,
        }
    }

    // What is known of them: what was known before if it is of the same, and else it is made anew.
    pub fn renewed(self, counts: bool, t: &Compiled, row: usize, parent: MatchState) -> Known
        requires { Recalls counts t.now self × (row ≤ 512) }
        ensures { (result ≡ known_of counts t.now row parent) × (result.tests ≤ 512) }
    {
        if self.is_of(row, parent) {
            return self;
        }
        Known::made(counts, t, row, parent)
    }
}

// Where it is kept what is known of an element: by its row, and by where that of its parent is kept.
pub fn slot_of(row: usize, parent: usize) -> usize
    ensures { (result ≡ (row % 64 + parent % 64 * 5) % 64) × (result < 64) }
{
    (row % Known::KEPT + parent % Known::KEPT * 5) % Known::KEPT
}
