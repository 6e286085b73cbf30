// A client's part in a pass over items that are read once for several and lie on a tape.
#![tactic(auto)]

mod standing; // the match states by level, made again for each tape
pub mod seat; // what a client keeps between two tapes, and its way through one
