// A random list, added to a text: lines of steps, each step and each mark drawn. The text has room for every list that this program draws.
use crate::draw::Draws;
use crate::mode::Mode;
use crate::names::Name;
use arrayvec::ArrayString;
use paths::Kind;
use std::fmt;
use std::fmt::Write;

// More bytes than any of the lists has.
const ROOM: usize = 4096;

// What a step of a kind begins with.
fn prefix(kind: Kind) -> &'static str {
    match kind {
        Kind::Child => "/",
        Kind::Descendant => "//",
        Kind::SelfStep => "/self::",
        Kind::DescendantOrSelf => "/descendant-or-self::",
    }
}

// Adds a step: its kind, then `*` or a name.
fn push_step(list: &mut ArrayString<ROOM>, draws: &mut Draws, m: Mode) -> fmt::Result {
    let kind = m.kind(draws.below(8));
    list.write_str(prefix(kind))?;
    if draws.below(8) < m.any {
        return list.write_str("*");
    }
    let name = Name(draws.below(m.listed));
    write!(list, "{name}")
}

// Adds a line: steps, a mark once in four times, and LF.
fn push_line(list: &mut ArrayString<ROOM>, draws: &mut Draws, m: Mode) -> fmt::Result {
    for _ in 0..draws.at_least(m.steps, m.more_steps) {
        push_step(list, draws, m)?;
    }
    if draws.below(4) == 0 {
        list.write_str(" #")?;
    }
    list.write_str("\n")
}

// Adds a list. The text is lent: one that is handed back is copied.
pub fn push_list(list: &mut ArrayString<ROOM>, draws: &mut Draws, m: Mode) -> fmt::Result {
    for _ in 0..draws.at_least(m.lines, m.more_lines) {
        push_line(list, draws, m)?;
    }
    Ok(())
}
