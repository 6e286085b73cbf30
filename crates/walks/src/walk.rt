// A random walk: elements start and end, at most 64 deep, and the matcher says what the list says of each. A state is kept for each open
// level; an end tag goes back to that of the parent.
ghost use Rattle.matcher.specs.Fit.{Serves};

use crate::draw::{Draws, fold};
use crate::mode::Mode;
use crate::names::Name;
use compiled::Compiled;
use matcher::Verdict;
use matcher::fit::fit_of;
use matcher::state::MatchState;
use std::fmt;

const EVENTS: usize = 300;

// As many levels as a document may have. Their source is `Open` of the crate document, on which neither the matcher nor this program
// stands.
const LEVELS: usize = 64;

// An element met: its level, its name, what is said of it.
#[derive(Clone, Copy)]
struct Met {
    level: usize,
    name: Name,
    verdict: Verdict,
}

impl Met {
    // The level and the verdict as one number.
    fn number(self) -> usize {
        let verdict = match self.verdict {
            Verdict::Unselected => 0,
            Verdict::Selected => 1,
            Verdict::Marked => 2,
        };
        self.level.wrapping_mul(3).wrapping_add(verdict)
    }
}

// A walk by numbers drawn: so many events, of which those that can't be, a start tag at level 65 or an end tag with nothing open, are none.
// An element that starts with nothing open is a root: it begins from a fresh state.
pub fn walk(list: &[u8], tables: &Compiled, mut draws: Draws, m: Mode) -> Tally
    requires { Serves list.now tables.now }
{
    // For each level the state that its elements begin from.
    let mut states = [MatchState::fresh(); LEVELS];
    let mut open: usize = 0;
    let mut tally = Tally::default();
    for _ in 0..EVENTS {
        if draws.below(16) >= m.starts {
            open = open.saturating_sub(1);
        } else if open < LEVELS {
            let state = states[open];
            let name = Name(draws.below(m.met));
            let text = name.text();
            let fit = fit_of(list, tables, text.as_bytes());
            open += 1;
            tally.add(Met {
                level: open,
                name,
                verdict: state.verdict_on(fit),
            });
            if open < LEVELS {
                states[open] = state.deeper(fit);
            }
        }
    }
    tally
}

// What is printed of a walk: the deepest level, a sum of the names met, how often each verdict came, a sum of levels and verdicts.
#[derive(Default, Drop)]
pub struct Tally {
    deepest: usize,
    names: usize,
    unselected: usize,
    selected: usize,
    marked: usize,
    verdicts: usize,
}

impl Tally {
    // Counts an element more.
    fn add(&mut self, met: Met) {
        self.deepest = self.deepest.max(met.level);
        self.names = fold(self.names, met.name.0);
        match met.verdict {
            Verdict::Unselected => self.unselected = self.unselected.wrapping_add(1),
            Verdict::Selected => self.selected = self.selected.wrapping_add(1),
            Verdict::Marked => self.marked = self.marked.wrapping_add(1),
        }
        self.verdicts = fold(self.verdicts, met.number());
    }
}

impl fmt::Display for Tally {
    fn fmt<W: fmt::Write>(&self, f: &mut fmt::Formatter<W>) -> fmt::Result {
        let Tally {
            deepest,
            names,
            unselected,
            selected,
            marked,
            verdicts,
        } = self;
        write!(
            f,
            "{deepest} {names} {unselected} {selected} {marked} {verdicts}"
        )
    }
}
