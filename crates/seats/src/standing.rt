// The match states by level, made again from the names by level: so a client keeps none between two tapes.
ghost use Rattle.std.specs.Prelude.{◌≤◌, length};
ghost use Rattle.paths.specs.Judge.{list_paths};
ghost use Rattle.matcher.specs.Fit.{Serves};
ghost use Rattle.output.specs.Levels.{Placed};
ghost use Rattle.seats.specs.Standing.{Standing};

use compiled::Compiled;
use document::Open;
use matcher::fit::{fit_by, row_of};
use matcher::state::MatchState;

// The states of all levels.
#[derive(Drop)]
pub struct States {
    pub all: [MatchState; Open::LEVELS],
}

// Those below the open elements, of which there are `level`, by the tables of a sound list.
pub fn states_of(
    list: &[u8],
    t: &Compiled,
    doc: &[u8],
    starts: &[usize; Open::LEVELS],
    lens: &[usize; Open::LEVELS],
    level: usize,
) -> States
    requires { Serves list.now t.now × (length doc.now ≤ 16777216) × Placed doc.now starts.now lens.now level }
    ensures { Standing (list_paths list.now) result.all doc.now starts.now lens.now level }
{
    let fresh = MatchState::fresh();
    let mut all = [fresh; Open::LEVELS];
    // no element stands below the deepest level, so there is no state for it
    for k in 0..level.min(Open::LEVELS - 1) {
        let a = starts[k];
        let n = lens[k];
        let row = row_of(list, t, &doc[a..a + n]);
        let fit = fit_by(t, row);
        let parent = all[k];
        let below = parent.deeper(fit);
        all[k + 1] = below;
    }
    States { all }
}
