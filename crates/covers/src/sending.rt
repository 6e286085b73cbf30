// Which paths of a wide list have steps that can be sent to those of a narrow path. The narrow path's steps are taken for elements, and the
// wide list's own match states are carried down them: one run answers for all wide paths.
//
//     //p/v  sent to  /g/p/v       narrow step    /g    /p    /v
//     steps that may go there                     //p   //p   //p /v
//     their tests are met                         .     //p   /v         and /v is the last, at the last: it is sent
ghost use Rattle.std.specs.Prelude.{◌≡◌, ◌≤◌, length};
ghost use Rattle.paths.specs.Judge.{list_paths};
ghost use Rattle.matcher.specs.Fit.{Serves};
ghost use Rattle.covers.specs.Sending.{far_only, fit_by, sent_bits};

use compiled::Compiled;
use matcher::fit::{Fit, fit_of};
use matcher::state::MatchState;
use paths::{Kind, step_at};

// A fit that only those steps pass that may go far.
fn far_only(fit: Fit) -> Fit
    ensures { result ≡ far_only fit }
{
    let mut passes = [0u16; MatchState::PATHS];
    for p in 0..MatchState::PATHS {
        passes[p] = fit.passes[p] & fit.far[p];
    }
    Fit { passes, ..fit }
}

// The steps that may go to a narrow step: their test is `*` or its name, and a child step goes to a child step only. No name of a list is
// empty, so the empty name, for `*`, is met by `*` alone.
fn fit_for(wide: &[u8], t: &Compiled, kind: Kind, name: &[u8]) -> Fit
    requires { Serves wide.now t.now }
    ensures { result ≡ fit_by (list_paths wide.now) kind name.now }
{
    let fit = fit_of(wide, t, name);
    match kind {
        Kind::Child => fit,
        Kind::Descendant => far_only(fit),
        Kind::SelfStep => far_only(fit),
        Kind::DescendantOrSelf => far_only(fit),
    }
}

// The wide paths whose steps can be sent to those of the narrow line at a place: bit p is path p's. It says nothing of paths with a self or
// descendant-or-self step.
pub fn sent_bits(narrow: &[u8], at: usize, wide: &[u8], t: &Compiled) -> u32
    requires { (at ≤ length narrow.now) × (length narrow.now ≤ 8192) × Serves wide.now t.now }
    ensures { result ≡ sent_bits (list_paths wide.now) narrow.now at }
{
    let mut state = MatchState::fresh();
    let mut bits: u32 = 0;
    let mut i = at;
    // Each turn goes on where the step before ended, so the place is no count.
    loop {
        match step_at(narrow, i) {
            Some(step) => {
                let from = step.name;
                let stop = from + step.len;
                let fit = fit_for(wide, t, step.kind, &narrow[from..stop]);
                bits = state.selecting(fit);
                state = state.deeper(fit);
                i = step.end;
            }
            None => {
                return bits;
            }
        }
    }
}
