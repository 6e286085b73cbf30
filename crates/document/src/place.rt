// An item in its place: whether it may stand there, what is open after it, and where it ends. The names of open elements are kept by level:
// a name's place, and its length.
//
//     <g><p><v>        level 3     starts  1  4  7     lens  1  1  1
//     <g><p><v></v>    level 2     starts  1  4  .     lens  1  1  .      an end tag closes the innermost
ghost use Rattle.std.specs.Prelude.{◌≡◌, ◌+◌, ◌-◌, ◌≤◌, length, set, false, ◌||◌, ltb};
ghost use Rattle.tags.specs.Kept.{name_from};
ghost use Rattle.items.specs.Inside.{Inside};
ghost use Rattle.document.specs.Place.{closes as closes_of, formed as formed_of, blank, placement, end_of};
ghost use Rattle.document.specs.Levels.{Names, names_of, opened_of, start_by, over_by, open_after, deeper as deeper_of, len_of};

use crate::{InputLevel, Open, Placement, Why};
use chars::space::after_space;
use tags::Item;
use tags::names::same_name;

// Well-formed if the test holds.
fn formed(test: bool) -> Placement
    ensures { result ≡ formed_of test }
{
    if test {
        return Placement::Fine;
    }
    Placement::Fault(Why::Malformed)
}

// Whether the name of n bytes at a is that of the innermost open element.
fn closes(
    doc: &[u8],
    starts: &[usize; Open::LEVELS],
    lens: &[usize; Open::LEVELS],
    opened: Open,
    a: usize,
    n: usize,
) -> bool
    requires { Names doc.now starts.now lens.now opened × (a + n ≤ length doc.now) }
    ensures { result ≡ closes_of (name_from doc.now a n)
        (names_of doc.now starts.now lens.now opened.level.0) }
{
    let level = opened.level.0;
    if level == 0 {
        return false;
    }
    same_name(doc, a, n, starts[level - 1], lens[level - 1])
}

// A start tag or empty tag: it may be one level too deep, have a repeated attribute, or be a second root.
fn start(opened: Open, twice: bool) -> Placement
    ensures { result ≡ start_by opened.level.0 opened.rooted twice }
{
    let level = opened.level.0;
    if level < Open::LEVELS {
        return formed(!(twice | (opened.rooted & (level == 0))));
    }
    Placement::Fault(Why::TooLarge)
}

// Text from at to e: any inside the root, white space outside it.
fn text(doc: &[u8], level: usize, at: usize, e: usize) -> Placement
    ensures { result ≡ formed_of (ltb 0 level || blank doc.now at e) }
{
    if level > 0 {
        return Placement::Fine;
    }
    formed(e <= after_space(doc, at))
}

// Nothing is left: a root was there, and all is closed.
fn over(opened: Open) -> Placement
    ensures { result ≡ over_by opened.level.0 opened.rooted }
{
    let level = opened.level.0;
    if opened.rooted & (level == 0) {
        return Placement::Over;
    }
    Placement::Fault(Why::Malformed)
}

// Whether the item at a place may stand there.
pub fn place(
    doc: &[u8],
    starts: &[usize; Open::LEVELS],
    lens: &[usize; Open::LEVELS],
    opened: Open,
    at: usize,
    item: Item,
) -> Placement
    requires { Names doc.now starts.now lens.now opened × Inside doc.now at item }
    ensures { result ≡ placement doc.now at item (opened_of doc.now starts.now lens.now opened) }
{
    let level = opened.level.0;
    let inside = level > 0;
    match item {
        Item::Declaration(_) => Placement::Fine,
        Item::Instruction(_) => Placement::Fine,
        Item::Comment(_) => Placement::Fine,
        Item::Section(_) => formed(inside),
        Item::Reference(_, _) => formed(inside),
        Item::Text(e) => text(doc, level, at, e),
        Item::Start {
            name: _,
            head: _,
            end: _,
            empty: _,
            twice,
        } => start(opened, twice),
        Item::Finish { name, end: _ } => formed(closes(doc, starts, lens, opened, at + 2, name)),
        Item::Doctype => Placement::Fault(Why::Doctype),
        Item::Malformed => Placement::Fault(Why::Malformed),
        Item::TooLarge => Placement::Fault(Why::TooLarge),
        Item::Nothing => over(opened),
    }
}

// The length of a start tag's name, and 0 for another item.
fn len_of(item: Item) -> usize
    ensures { result ≡ len_of item }
{
    if let Item::Start {
        name,
        head: _,
        end: _,
        empty: _,
        twice: _,
    } = item
    {
        return name;
    }
    0
}

// The name of a start tag is kept at the level that the tag opens.
pub fn keep(
    starts: &mut [usize; Open::LEVELS],
    lens: &mut [usize; Open::LEVELS],
    opened: Open,
    at: usize,
    item: Item,
)
    requires { (length starts.old ≡ 64) × (length lens.old ≡ 64) × (at + 1 ≤ 18446744073709551615) }
    ensures starts_after { starts.new ≡ set starts.old opened.level.0 (at + 1) }
    ensures lens_after { lens.new ≡ set lens.old opened.level.0 (len_of item) }
{
    let reached = opened.level.0;
    if reached < Open::LEVELS {
        starts[reached] = at + 1;
        lens[reached] = len_of(item);
    }
}

// Where an item ends; a fault ends where it begins.
pub fn end_of(at: usize, item: Item) -> usize
    ensures { result ≡ end_of at item }
{
    match item {
        Item::Declaration(e) => e,
        Item::Instruction(e) => e,
        Item::Comment(e) => e,
        Item::Section(e) => e,
        Item::Reference(_, e) => e,
        Item::Text(e) => e,
        Item::Start {
            name: _,
            head: _,
            end,
            empty: _,
            twice: _,
        } => end,
        Item::Finish { name: _, end } => end,
        Item::Doctype => at,
        Item::Malformed => at,
        Item::TooLarge => at,
        Item::Nothing => at,
    }
}

// One level deeper, but for an empty tag.
fn deeper(empty: bool, level: usize) -> usize
    requires { level ≤ 64 }
    ensures { result ≡ deeper_of empty level }
{
    if empty {
        return level;
    }
    level + 1
}

// One level up.
fn below(level: usize) -> usize
    ensures { result ≡ level - 1 }
{
    if level == 0 {
        return 0;
    }
    level - 1
}

impl Open {
    // Nothing is open, and no root was there.
    pub fn none() -> Open
        ensures { result ≡ record { level = record { 0 = 0 }; rooted = false } }
    {
        Open {
            level: InputLevel(0),
            rooted: false,
        }
    }

    // What is open after an item.
    pub fn after(self, item: Item) -> Open
        requires { self.level.0 ≤ 64 }
        ensures { result ≡ open_after item self }
    {
        let level = self.level.0;
        match item {
            Item::Start {
                name: _,
                head: _,
                end: _,
                empty,
                twice: _,
            } => Open {
                level: InputLevel(deeper(empty, level)),
                rooted: true,
            },
            Item::Finish { name: _, end: _ } => Open {
                level: InputLevel(below(level)),
                rooted: self.rooted,
            },
            _ => self,
        }
    }
}
