// What a round is like: few names in deep trees; many names; long paths; many lines; self steps; descendant-or-self steps; many steps at
// few places; and at times an empty list. Every number of a list and of a walk is drawn by one of these.
use paths::Kind;

// A list has `lines` lines and a number more, drawn below `more_lines`; the steps of a line likewise. A step has a number drawn below 8:
// below `descendants` it is a descendant step, else below `selves` a self step, else below `or_selves` a descendant-or-self step. It is `*`
// if another is below `any`; its name is drawn from the first `listed` ones, an element's from the first `met`. An element starts if a
// number drawn below 16 is below `starts`, else one ends.
#[derive(Clone, Copy)]
pub struct Mode {
    pub lines: usize,
    pub more_lines: usize,
    pub steps: usize,
    pub more_steps: usize,
    pub listed: usize,
    pub met: usize,
    pub descendants: usize,
    pub selves: usize,
    pub or_selves: usize,
    pub any: usize,
    pub starts: usize,
}

impl Mode {
    // The kind for a number drawn.
    pub fn kind(self, drawn: usize) -> Kind {
        if drawn < self.descendants {
            Kind::Descendant
        } else if drawn < self.selves {
            Kind::SelfStep
        } else if drawn < self.or_selves {
            Kind::DescendantOrSelf
        } else {
            Kind::Child
        }
    }
}

// In the order of the fields, a row for each of the above.
const MODES: [[usize; 11]; 8] = [
    [1, 7, 1, 5, 2, 3, 4, 4, 4, 1, 10],
    [1, 32, 1, 3, 200, 220, 5, 5, 5, 1, 9],
    [1, 8, 12, 5, 1, 2, 3, 3, 3, 4, 12],
    [29, 4, 2, 4, 5, 7, 4, 5, 6, 1, 10],
    [1, 7, 2, 5, 2, 3, 3, 6, 6, 3, 10],
    [1, 7, 1, 5, 3, 4, 2, 2, 6, 1, 10],
    [1, 8, 12, 5, 1, 2, 1, 4, 7, 4, 12],
    [0, 0, 0, 0, 0, 3, 0, 0, 0, 0, 9],
];

// The mode of a round: four rounds of each, and one with an empty list.
pub fn mode_of(r: usize) -> Mode {
    let [
        lines,
        more_lines,
        steps,
        more_steps,
        listed,
        met,
        descendants,
        selves,
        or_selves,
        any,
        starts,
    ] = MODES[r % 29 / 4];
    Mode {
        lines,
        more_lines,
        steps,
        more_steps,
        listed,
        met,
        descendants,
        selves,
        or_selves,
        any,
        starts,
    }
}
