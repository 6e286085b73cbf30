// A client's part in a pass: the tags of a tape, one after the other. Each element is matched, and what is written of it is laid into the
// client's buffer, and noted. Of what stands between two tags nothing is asked: it is dropped, or is part of a kept entry, which is written
// in one piece.
//
//     tape      tags 0 to 4095      tags 4096 to 8191      ..          read once, and each client goes through it
//     seat  ->      through      ->      through      ->   ..          a client's, from one tape to the next
//
// The match states by level and what is known of elements (`memo`) are made for each tape anew, so a client keeps none of them: what it
// writes does not depend on them.
ghost use Rattle.std.specs.Prelude.{◌≡◌, true, false, ◌≤◌, length};
ghost use Rattle.matcher.specs.Fit.{Serves};
ghost use Rattle.seats.specs.Seated.{Begun, seat_spot};
ghost use Rattle.seats.specs.Went.{Lies, Sits, WentBy, Through};

use crate::standing::states_of;
use compiled::Compiled;
use document::place::keep;
use document::{InputLevel, Open};
use matcher::fit::row_of;
use output::Run;
use output::step::{other_step, tag_step};
use passes::judged;
use points::class::Classes;
use recall::{Known, slot_of};
use tags::Item;
use tape::{Tape, begin_on, tag_on};
use tests::any;

// What a client keeps between two tapes, beside the names by level: what is written; what is open, where the next item begins and whether
// it is the document's first; and how many name tests were tried.
#[derive(Clone, Copy)]
pub struct Seat {
    pub run: Run,
    pub opened: Open,
    pub at: usize,
    pub first: bool,
    pub tests: usize,
}

impl Seat {
    // Before the first item, which begins at this place.
    pub fn none(at: usize) -> Seat
        ensures { result ≡ record {
          run = record { reached = record { 0 = 0 }; kept = 0; len = 0; count = 0; noted = 0 };
          opened = record { level = record { 0 = 0 }; rooted = false };
          at = at;
          first = true;
          tests = 0;
        } }
    {
        Seat {
            run: Run::none(),
            opened: Open::none(),
            at,
            first: true,
            tests: 0,
        }
    }
}

// Through the tags of a tape, by the tables of a sound list, and to the place where its reader stopped: there the next item begins, which
// may be the document's first. Name tests are counted where that is asked for.
fn all_through(
    table: &Classes,
    list: &[u8],
    t: &Compiled,
    counts: bool,
    doc: &[u8],
    tape: &Tape,
    tags: usize,
    to: usize,
    first: bool,
    starts: &mut [usize; Open::LEVELS],
    lens: &mut [usize; Open::LEVELS],
    out: &mut [u8],
    log: &mut [u64],
    seat: Seat,
) -> Seat
    requires { (length doc.now ≤ 16777216) × (length log.old ≤ 16777216) × (tags ≤ 4096)
        × Serves list.now t.now × Begun counts list.now doc.now starts.old lens.old seat out.old log.old
        × Lies doc.now tape.now (seat_spot doc.now starts.old lens.old seat) tags to first }
    ensures { WentBy counts list.now doc.now tape.now starts.old lens.old seat
        out.old log.old tags to first starts.new lens.new result out.new
        log.new }
{
    let mut opened = seat.opened;
    let mut run = seat.run;
    let mut tests = seat.tests;
    let tested = any(t);
    let reached = opened.level.0;
    let made = states_of(list, t, doc, starts, lens, reached);
    let mut states = made.all;
    let nothing = Known::nothing();
    let mut memo = [nothing; Known::KEPT];
    let mut slots = [0usize; Open::LEVELS];
    for k in 0..tags {
        let at = begin_on(tape, k);
        let next = tag_on(tape, k);
        let level = opened.level.0;
        if let Item::Start {
            name,
            head,
            end,
            empty,
            twice: _,
        } = next
        {
            keep(starts, lens, opened, at, next);
            let parent = states[level];
            let a = at + 1;
            let row = row_of(list, t, &doc[a..a + name]);
            let slot = slot_of(row, slots[level]);
            let before = memo[slot];
            if !before.is_of(row, parent) {
                memo[slot] = Known::made(counts, t, row, parent);
            }
            let known = memo[slot];
            let below = known.below;
            let plain = known.verdict;
            let tried = known.tests;
            tests = tests + (tried as usize);
            let verdict = judged(
                table, list, t, tested, doc, parent, row, plain, at, name, head,
            );
            if level + 1 < Open::LEVELS {
                states[level + 1] = below;
                slots[level + 1] = slot;
            }
            run = tag_step(
                run,
                InputLevel(level),
                doc,
                starts,
                lens,
                out,
                log,
                verdict,
                at,
                head,
                end,
                empty,
            );
            opened = opened.after(next);
            continue;
        }
        run = other_step(
            run,
            InputLevel(level),
            doc,
            starts,
            lens,
            out,
            log,
            at,
            next,
        );
        opened = opened.after(next);
    }
    Seat {
        run,
        opened,
        at: to,
        first,
        tests,
    }
}

// The same, for a client that is live; one that sits out stays as it is.
pub fn through(
    table: &Classes,
    list: &[u8],
    t: &Compiled,
    live: bool,
    counts: bool,
    doc: &[u8],
    tape: &Tape,
    tags: usize,
    to: usize,
    first: bool,
    starts: &mut [usize; Open::LEVELS],
    lens: &mut [usize; Open::LEVELS],
    out: &mut [u8],
    log: &mut [u64],
    seat: Seat,
) -> Seat
    requires { (length doc.now ≤ 16777216) × (length log.old ≤ 16777216) × (tags ≤ 4096)
        × Sits live counts list.now t.now doc.now tape.now starts.old lens.old seat out.old log.old tags to first }
    ensures { Through live counts list.now doc.now tape.now starts.old
        lens.old seat out.old log.old tags to first starts.new lens.new result
        out.new log.new }
{
    if live {
        return all_through(
            table, list, t, counts, doc, tape, tags, to, first, starts, lens, out, log, seat,
        );
    }
    seat
}
