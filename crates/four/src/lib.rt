// Four clients in one call: four lists, a document and four buffers, and for each client what a call made for it alone gives. A seat that
// is not used has an empty list. What a client gets back is in specs/Seats.antt; that it depends on nothing of the others, in
// proofs/Apart.antt.
//
//     list      each is judged and compiled                 refused: 1 2 3, its owner alone
//     document  its length, the encoding that it declares,
//               then its characters, once                   refused: 4 10 5, each client whose list is sound
//               one pass over its items for all, which
//               measures each cut and notes it              refused: 6 7 8, each client whose list is sound
//     buffer    is there room for the cut                   refused: 9, its owner alone
//               the cut is laid from the notes; or where    0
//               a log has no room for all, one more pass
//               writes, for those whose log has none
//
// A client's part is in specs/Parts.antt: the four are served by the same functions, each by its own list, table, buffer and log.
#![tactic(auto)]

ghost use Rattle.std.specs.Prelude.{◌≡◌, length, ◌≤◌};
ghost use Rattle.paths.specs.Judge.{list_answer};
ghost use Rattle.cutter.specs.Answer.{answer_of, bytes_after};
ghost use Rattle.four.specs.Parts.{Listed, Readable};

use compiled::compile::read;
use compiled::{Compiled, layout};
use cutter::answer::Cut;
use parts::{by_list, head_of, serve, sound};
use paths::ListError;
use points::class::Classes;
use refusals::CutError;
use together::pass_of_four;

mod parts; // what is answered to one client

// What is answered to each client.
#[derive(Drop)]
pub struct Answers {
    pub first: Result<Cut, CutError>,
    pub second: Result<Cut, CutError>,
    pub third: Result<Cut, CutError>,
    pub fourth: Result<Cut, CutError>,
}

// The length of the log that a client has in a call: 32 KiB of stack each.
const NOTES: usize = 4096;

// How many notes a log of a length is used for.
fn used(length: usize) -> usize
    ensures { (result ≤ length) × (result ≤ 16777216) }
{
    if length < 16777216 {
        return length;
    }
    16777216
}

// A document whose items are to be read, by the tables of the lists that are sound: measured, and laid.
fn measured(
    l1: &[u8],
    l2: &[u8],
    l3: &[u8],
    l4: &[u8],
    t1: &Compiled,
    t2: &Compiled,
    t3: &Compiled,
    t4: &Compiled,
    a1: Result<(), ListError>,
    a2: Result<(), ListError>,
    a3: Result<(), ListError>,
    a4: Result<(), ListError>,
    doc: &[u8],
    o1: &mut [u8],
    o2: &mut [u8],
    o3: &mut [u8],
    o4: &mut [u8],
    g1: &mut [u64],
    g2: &mut [u64],
    g3: &mut [u64],
    g4: &mut [u64],
) -> Answers
    requires { Readable doc.now × Listed l1.now a1 t1.now g1.old × Listed l2.now a2 t2.now g2.old
        × Listed l3.now a3 t3.now g3.old × Listed l4.now a4 t4.now g4.old }
    ensures first_value { result.first ≡ answer_of l1.now doc.now (length o1.old) }
    ensures second_value { result.second ≡ answer_of l2.now doc.now (length o2.old) }
    ensures third_value { result.third ≡ answer_of l3.now doc.now (length o3.old) }
    ensures fourth_value { result.fourth ≡ answer_of l4.now doc.now (length o4.old) }
    ensures o1_after { o1.new ≡ bytes_after l1.now doc.now o1.old }
    ensures o2_after { o2.new ≡ bytes_after l2.now doc.now o2.old }
    ensures o3_after { o3.new ≡ bytes_after l3.now doc.now o3.old }
    ensures o4_after { o4.new ≡ bytes_after l4.now doc.now o4.old }
{
    let w1 = sound(a1);
    let w2 = sound(a2);
    let w3 = sound(a3);
    let w4 = sound(a4);
    let table = Classes::new();
    let mut x1 = [0u8; 1];
    let mut x2 = [0u8; 1];
    let mut x3 = [0u8; 1];
    let mut x4 = [0u8; 1];
    let m = pass_of_four(
        &table, l1, l2, l3, l4, t1, t2, t3, t4, w1, w2, w3, w4, true, doc, &mut x1, &mut x2,
        &mut x3, &mut x4, g1, g2, g3, g4,
    );
    let m1 = m.first;
    let m2 = m.second;
    let m3 = m.third;
    let m4 = m.fourth;
    let p1 = serve(a1, m1, doc, o1, g1);
    let p2 = serve(a2, m2, doc, o2, g2);
    let p3 = serve(a3, m3, doc, o3, g3);
    let p4 = serve(a4, m4, doc, o4, g4);
    let first = p1.answer;
    let second = p2.answer;
    let third = p3.answer;
    let fourth = p4.answer;
    let v1 = p1.left;
    let v2 = p2.left;
    let v3 = p3.left;
    let v4 = p4.left;
    if !(v1 | v2 | v3 | v4) {
        return Answers {
            first,
            second,
            third,
            fourth,
        };
    }
    pass_of_four(
        &table, l1, l2, l3, l4, t1, t2, t3, t4, v1, v2, v3, v4, false, doc, o1, o2, o3, o4, g1, g2,
        g3, g4,
    );
    Answers {
        first,
        second,
        third,
        fourth,
    }
}

// The same in logs that are not too long.
fn listed(
    l1: &[u8],
    l2: &[u8],
    l3: &[u8],
    l4: &[u8],
    doc: &[u8],
    o1: &mut [u8],
    o2: &mut [u8],
    o3: &mut [u8],
    o4: &mut [u8],
    g1: &mut [u64],
    g2: &mut [u64],
    g3: &mut [u64],
    g4: &mut [u64],
) -> Answers
    requires { (length g1.old ≤ 16777216) × (length g2.old ≤ 16777216) × (length g3.old ≤ 16777216)
        × (length g4.old ≤ 16777216) }
    ensures first_value { result.first ≡ answer_of l1.now doc.now (length o1.old) }
    ensures second_value { result.second ≡ answer_of l2.now doc.now (length o2.old) }
    ensures third_value { result.third ≡ answer_of l3.now doc.now (length o3.old) }
    ensures fourth_value { result.fourth ≡ answer_of l4.now doc.now (length o4.old) }
    ensures o1_after { o1.new ≡ bytes_after l1.now doc.now o1.old }
    ensures o2_after { o2.new ≡ bytes_after l2.now doc.now o2.old }
    ensures o3_after { o3.new ≡ bytes_after l3.now doc.now o3.old }
    ensures o4_after { o4.new ≡ bytes_after l4.now doc.now o4.old }
{
    let mut t1 = [0u16; layout::LENGTH];
    let mut t2 = [0u16; layout::LENGTH];
    let mut t3 = [0u16; layout::LENGTH];
    let mut t4 = [0u16; layout::LENGTH];
    let a1 = read(l1, &mut t1);
    let a2 = read(l2, &mut t2);
    let a3 = read(l3, &mut t3);
    let a4 = read(l4, &mut t4);
    match head_of(doc) {
        Ok(()) => measured(
            l1, l2, l3, l4, &t1, &t2, &t3, &t4, a1, a2, a3, a4, doc, o1, o2, o3, o4, g1, g2, g3, g4,
        ),
        Err(e) => {
            let answer = Err(CutError::from(e));
            let first = by_list(a1, answer);
            let second = by_list(a2, answer);
            let third = by_list(a3, answer);
            let fourth = by_list(a4, answer);
            Answers {
                first,
                second,
                third,
                fourth,
            }
        }
    }
}

// Any lists, any document, any buffers and any logs. What stands in a log afterwards says nothing.
pub fn four_with(
    l1: &[u8],
    l2: &[u8],
    l3: &[u8],
    l4: &[u8],
    doc: &[u8],
    o1: &mut [u8],
    o2: &mut [u8],
    o3: &mut [u8],
    o4: &mut [u8],
    g1: &mut [u64],
    g2: &mut [u64],
    g3: &mut [u64],
    g4: &mut [u64],
) -> Answers
    ensures first_value { result.first ≡ answer_of l1.now doc.now (length o1.old) }
    ensures second_value { result.second ≡ answer_of l2.now doc.now (length o2.old) }
    ensures third_value { result.third ≡ answer_of l3.now doc.now (length o3.old) }
    ensures fourth_value { result.fourth ≡ answer_of l4.now doc.now (length o4.old) }
    ensures o1_after { o1.new ≡ bytes_after l1.now doc.now o1.old }
    ensures o2_after { o2.new ≡ bytes_after l2.now doc.now o2.old }
    ensures o3_after { o3.new ≡ bytes_after l3.now doc.now o3.old }
    ensures o4_after { o4.new ≡ bytes_after l4.now doc.now o4.old }
{
    let n1 = used(g1.len());
    let n2 = used(g2.len());
    let n3 = used(g3.len());
    let n4 = used(g4.len());
    listed(
        l1,
        l2,
        l3,
        l4,
        doc,
        o1,
        o2,
        o3,
        o4,
        &mut g1[0..n1],
        &mut g2[0..n2],
        &mut g3[0..n3],
        &mut g4[0..n4],
    )
}

// The same in logs of its own.
pub fn four(
    l1: &[u8],
    l2: &[u8],
    l3: &[u8],
    l4: &[u8],
    doc: &[u8],
    o1: &mut [u8],
    o2: &mut [u8],
    o3: &mut [u8],
    o4: &mut [u8],
) -> Answers
    ensures first_value { result.first ≡ answer_of l1.now doc.now (length o1.old) }
    ensures second_value { result.second ≡ answer_of l2.now doc.now (length o2.old) }
    ensures third_value { result.third ≡ answer_of l3.now doc.now (length o3.old) }
    ensures fourth_value { result.fourth ≡ answer_of l4.now doc.now (length o4.old) }
    ensures o1_after { o1.new ≡ bytes_after l1.now doc.now o1.old }
    ensures o2_after { o2.new ≡ bytes_after l2.now doc.now o2.old }
    ensures o3_after { o3.new ≡ bytes_after l3.now doc.now o3.old }
    ensures o4_after { o4.new ≡ bytes_after l4.now doc.now o4.old }
{
    let mut g1 = [0u64; NOTES];
    let mut g2 = [0u64; NOTES];
    let mut g3 = [0u64; NOTES];
    let mut g4 = [0u64; NOTES];
    four_with(
        l1, l2, l3, l4, doc, o1, o2, o3, o4, &mut g1, &mut g2, &mut g3, &mut g4,
    )
}
