// The reader for a tape: items are read and put in their places, and the tags among them are laid on the tape, until it is full, nothing is
// left, or one is at fault. It knows no list and no client. What it hands back is in specs/Reeling.antt.
#![tactic(auto)]

ghost use Rattle.std.specs.Prelude.{◌≡◌, ◌≤◌, length};
ghost use Rattle.document.specs.Levels.{Names};
ghost use Rattle.passes.specs.Opens.{Opens};
ghost use Rattle.tape.specs.Taped.{spot_of};
ghost use Rattle.reel.specs.Reeling.{Reeling, Stopped};

use document::place::{end_of, keep};
use document::{Open, Placement, Why};
use passes::next_item;
use points::class::Classes;
use tags::Item;
use tape::{TAGS, Tape, put};

// Why the reader stopped: the tape is full; nothing is left, and the document is sound; the next item is at fault.
#[derive(Drop)]
pub enum Stop {
    Full,
    Over,
    Fault(Why),
}

// How many items were read, how many of them are tags, which are on the tape, what is open after them, where the next begins and whether
// it is the first of the document.
#[derive(Drop)]
pub struct Read {
    pub items: usize,
    pub tags: usize,
    pub opened: Open,
    pub at: usize,
    pub first: bool,
    pub stop: Stop,
}

// The items from a place on, where `opened` and the names kept by level say what is open. The names of the elements that are open after
// them are kept; what stands in the arrays above their level says nothing, and so do the entries behind the tags.
pub fn items(
    table: &Classes,
    doc: &[u8],
    starts: &mut [usize; Open::LEVELS],
    lens: &mut [usize; Open::LEVELS],
    opened: Open,
    at: usize,
    first: bool,
    tape: &mut Tape,
) -> Read
    requires { (length doc.now ≤ 16777216) × Names doc.now starts.old lens.old opened
        × Opens doc.now starts.old lens.old opened.level.0 × (at ≤ length doc.now) × (length tape.old ≡ 20480) }
    ensures reeling { Reeling doc.now (spot_of doc.now starts.old lens.old opened at first)
        starts.new lens.new tape.new result.opened result.at result.first result.items result.tags }
    ensures stopped { Stopped doc.now (spot_of doc.now starts.old lens.old opened at first)
        result.items result.tags result.stop }
{
    let mut opened = opened;
    let mut at = at;
    let mut first = first;
    let mut items: usize = 0;
    let mut tags: usize = 0;
    // Each turn goes on where the item ended, and not each item is a tag, so neither the place nor the tags count turns.
    while tags < TAGS {
        let seen = next_item(table, doc, starts, lens, opened, at, first);
        let next = seen.item;
        let placed = seen.placed;
        match placed {
            Placement::Fault(why) => {
                return Read {
                    items,
                    tags,
                    opened,
                    at,
                    first,
                    stop: Stop::Fault(why),
                };
            }
            Placement::Over => {
                return Read {
                    items,
                    tags,
                    opened,
                    at,
                    first,
                    stop: Stop::Over,
                };
            }
            Placement::Fine => {
                if let Item::Start {
                    name: _,
                    head: _,
                    end: _,
                    empty: _,
                    twice: _,
                } = next
                {
                    keep(starts, lens, opened, at, next);
                }
                tags = put(tape, tags, at, next);
                opened = opened.after(next);
                at = end_of(at, next);
                first = false;
                items += 1;
            }
        }
    }
    Read {
        items,
        tags,
        opened,
        at,
        first,
        stop: Stop::Full,
    }
}
