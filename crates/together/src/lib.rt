// One pass over the items of a document for four clients. The reader lays tags on a tape until it is full; each client that takes part
// goes through it; and the reader goes on. Where the last item stands, or one is at fault, is the same for all.
//
//     reader    <g><p><v> ..        tape        </v></p> ..         tape        the document is over, or an item is at fault
//     first                         through                         through     its outcome
//     second                        through                         through     its outcome
//     third                         through                         through     its outcome
//     fourth    sits out
//
// A client keeps between two tapes what is written, the name tests tried, and the names of the open elements, in two arrays of its own.
#![tactic(auto)]

ghost use Rattle.std.specs.Prelude.{◌≡◌, ◌≤◌, length};
ghost use Rattle.together.specs.Joined.{Joins, PassedFor};

use compiled::Compiled;
use document::judge::start_of;
use document::{ItemError, Open};
use passes::Measured;
use points::class::Classes;
use reel::{Stop, items};
use seats::seat::{Seat, through};
use tape::TAGS;

// What the pass comes to for each client.
#[derive(Drop)]
pub struct Outcomes {
    pub first: Result<Measured, ItemError>,
    pub second: Result<Measured, ItemError>,
    pub third: Result<Measured, ItemError>,
    pub fourth: Result<Measured, ItemError>,
}

// The document is over: what a client has.
fn ended(seat: Seat) -> Measured
    ensures { result ≡ record {
      length = seat.run.len;
      selected = seat.run.count;
      tests = seat.tests;
      noted = seat.run.noted;
    } }
{
    let run = seat.run;
    Measured {
        length: run.len,
        selected: run.count,
        tests: seat.tests,
        noted: run.noted,
    }
}

// By the tables of the lists of the clients that take part. Name tests are counted where that is asked for. The outcome of a client that
// sits out says nothing; its buffer and its log stay.
pub fn pass_of_four(
    table: &Classes,
    l1: &[u8],
    l2: &[u8],
    l3: &[u8],
    l4: &[u8],
    t1: &Compiled,
    t2: &Compiled,
    t3: &Compiled,
    t4: &Compiled,
    w1: bool,
    w2: bool,
    w3: bool,
    w4: bool,
    counts: bool,
    doc: &[u8],
    o1: &mut [u8],
    o2: &mut [u8],
    o3: &mut [u8],
    o4: &mut [u8],
    g1: &mut [u64],
    g2: &mut [u64],
    g3: &mut [u64],
    g4: &mut [u64],
) -> Outcomes
    requires { (length doc.now ≤ 16777216) × Joins w1 l1.now t1.now g1.old
        × Joins w2 l2.now t2.now g2.old × Joins w3 l3.now t3.now g3.old × Joins w4 l4.now t4.now g4.old }
    ensures first_passed { PassedFor w1 counts l1.now doc.now o1.old g1.old
        result.first o1.new g1.new }
    ensures second_passed { PassedFor w2 counts l2.now doc.now o2.old g2.old
        result.second o2.new g2.new }
    ensures third_passed { PassedFor w3 counts l3.now doc.now o3.old g3.old
        result.third o3.new g3.new }
    ensures fourth_passed { PassedFor w4 counts l4.now doc.now o4.old g4.old
        result.fourth o4.new g4.new }
{
    let mut tape = [0usize; 5 * TAGS];
    let mut starts = [0usize; Open::LEVELS];
    let mut lens = [0usize; Open::LEVELS];
    let mut starts1 = [0usize; Open::LEVELS];
    let mut lens1 = [0usize; Open::LEVELS];
    let mut starts2 = [0usize; Open::LEVELS];
    let mut lens2 = [0usize; Open::LEVELS];
    let mut starts3 = [0usize; Open::LEVELS];
    let mut lens3 = [0usize; Open::LEVELS];
    let mut starts4 = [0usize; Open::LEVELS];
    let mut lens4 = [0usize; Open::LEVELS];
    let mut opened = Open::none();
    let mut at = start_of(doc);
    let mut first = true;
    let none = Seat::none(at);
    let mut s1 = none;
    let mut s2 = none;
    let mut s3 = none;
    let mut s4 = none;
    // Each turn goes on where the reader stopped on the tape before, so the place is no count.
    loop {
        let read = items(
            table,
            doc,
            &mut starts,
            &mut lens,
            opened,
            at,
            first,
            &mut tape,
        );
        let tags = read.tags;
        let to = read.at;
        let still = read.first;
        s1 = through(
            table,
            l1,
            t1,
            w1,
            counts,
            doc,
            &tape,
            tags,
            to,
            still,
            &mut starts1,
            &mut lens1,
            o1,
            g1,
            s1,
        );
        s2 = through(
            table,
            l2,
            t2,
            w2,
            counts,
            doc,
            &tape,
            tags,
            to,
            still,
            &mut starts2,
            &mut lens2,
            o2,
            g2,
            s2,
        );
        s3 = through(
            table,
            l3,
            t3,
            w3,
            counts,
            doc,
            &tape,
            tags,
            to,
            still,
            &mut starts3,
            &mut lens3,
            o3,
            g3,
            s3,
        );
        s4 = through(
            table,
            l4,
            t4,
            w4,
            counts,
            doc,
            &tape,
            tags,
            to,
            still,
            &mut starts4,
            &mut lens4,
            o4,
            g4,
            s4,
        );
        opened = read.opened;
        at = to;
        first = still;
        let stop = read.stop;
        match stop {
            Stop::Fault(why) => {
                let fault = ItemError { why, at };
                return Outcomes {
                    first: Err(fault),
                    second: Err(fault),
                    third: Err(fault),
                    fourth: Err(fault),
                };
            }
            Stop::Over => {
                let e1 = ended(s1);
                let e2 = ended(s2);
                let e3 = ended(s3);
                let e4 = ended(s4);
                return Outcomes {
                    first: Ok(e1),
                    second: Ok(e2),
                    third: Ok(e3),
                    fourth: Ok(e4),
                };
            }
            Stop::Full => {}
        }
    }
}
