// What an element's name passes, for each path, with what the list says of the path's steps: all that matching needs of an element.
// A name is looked up among the distinct names of the list, by its bytes. Then the verdict by the paths whose attribute tests pass.
ghost use Rattle.std.specs.Prelude.{◌≡◌, ◌+◌, ◌≤◌, length, take, drop};
ghost use Rattle.paths.specs.Judge.{list_paths};
ghost use Rattle.lookup.specs.Names.{names_of, place_of};
ghost use Rattle.matcher.specs.Fit.{fit_for, fit_at, Serves};
ghost use Rattle.matcher.specs.Picked.{picked_by};

use crate::Verdict;
use crate::state::MatchState;
use compiled::{Compiled, layout};
use lookup::find::find;

// For each path: the steps that pass the name; those that may stay, go below, go far; the last one; and the last one again if the path is
// marked.
#[derive(Clone, Copy)]
pub struct Fit {
    pub passes: [u16; MatchState::PATHS],
    pub stays: [u16; MatchState::PATHS],
    pub goes: [u16; MatchState::PATHS],
    pub far: [u16; MatchState::PATHS],
    pub lasts: [u16; MatchState::PATHS],
    pub marks: [u16; MatchState::PATHS],
}

// A number for each path, from a place of the tables on.
fn numbers(t: &[u16], from: usize) -> [u16; MatchState::PATHS]
    requires { from + 32 ≤ length t.now }
    ensures { result ≡ take 32 (drop from t.now) }
{
    let mut bits = [0u16; MatchState::PATHS];
    let to = from + MatchState::PATHS;
    bits.copy_from_slice(&t[from..to]);
    bits
}

// The row of a name in the tables of a sound list: its place among the list's names, or 0 for a name that no step has.
pub fn row_of(list: &[u8], t: &Compiled, name: &[u8]) -> usize
    requires { Serves list.now t.now }
    ensures { result ≡ place_of (names_of (list_paths list.now)) name.now }
{
    let s = &t[..];
    find(
        list,
        &s[layout::AT..layout::LEN],
        &s[layout::LEN..layout::HEAD],
        &s[layout::HEAD..layout::NEXT],
        &s[layout::NEXT..layout::ROWS],
        name,
    )
}

// The fit of a row of the tables, with the list's columns.
pub fn fit_by(t: &Compiled, row: usize) -> Fit
    requires { row ≤ 512 }
    ensures { result ≡ fit_at t.now row }
{
    let s = &t[..];
    let passes = numbers(s, layout::ROWS + layout::PATHS * row);
    let stays = numbers(s, layout::STAYS);
    let goes = numbers(s, layout::GOES);
    let far = numbers(s, layout::FAR);
    let lasts = numbers(s, layout::LASTS);
    let marks = numbers(s, layout::MARKS);
    Fit {
        passes,
        stays,
        goes,
        far,
        lasts,
        marks,
    }
}

// The fit of a name, by the tables of a sound list: that of its row.
pub fn fit_of(list: &[u8], t: &Compiled, name: &[u8]) -> Fit
    requires { Serves list.now t.now }
    ensures { result ≡ fit_for (list_paths list.now) name.now }
{
    let row = row_of(list, t, name);
    fit_by(t, row)
}

impl Fit {
    // What the list says of an element, by those of the paths whose steps select it whose tests pass: bit p is path p's. Nothing else of
    // its attributes comes here.
    pub fn verdict_of(self, passing: u32) -> Verdict
        ensures { result ≡ picked_by self passing }
    {
        if passing == 0 {
            return Verdict::Unselected;
        }
        let marks = self.marks;
        let mut left = passing;
        let mut p: usize = 0;
        // Up to the last bit that is set: a `for` over the 32 marks is unrolled into the loop of `pass`, by which a cut takes 6% longer.
        while left != 0 {
            let set = left % 2;
            let mark = marks[p];
            left = left / 2;
            p += 1;
            if set == 0 {
                continue;
            }
            if mark != 0 {
                return Verdict::Marked;
            }
        }
        Verdict::Selected
    }
}
