// Four clients in one call, for callers in Rust and C: four lists, a document and four buffers. The four numbers of each client, those of
// `choughbell_cut`, are written to a lent array, one client behind the other. C is given the functions of the crate `clients_c`, which call
// these.
#![tactic(auto)]

ghost use Rattle.std.specs.Prelude.{◌≡◌, length};
ghost use Rattle.cutter.specs.Answer.{answer_of, bytes_after};
ghost use Rattle.clients.specs.Results.{results_of};

use exported::numbers_of;
use four::Answers;

// The numbers of four answers.
fn results_of(a: Answers) -> [u64; 16]
    ensures { result ≡ results_of a.first a.second a.third a.fourth }
{
    let answer1 = a.first;
    let answer2 = a.second;
    let answer3 = a.third;
    let answer4 = a.fourth;
    let first = numbers_of(answer1);
    let second = numbers_of(answer2);
    let third = numbers_of(answer3);
    let fourth = numbers_of(answer4);
    [
        first.number,
        first.second,
        first.third,
        first.fourth,
        second.number,
        second.second,
        second.third,
        second.fourth,
        third.number,
        third.second,
        third.third,
        third.fourth,
        fourth.number,
        fourth.second,
        fourth.third,
        fourth.fourth,
    ]
}

// Writes the cut of a document by each of four lists into its own buffer, and gives the numbers of each answer.
#[unsafe(no_mangle)]
pub extern "C" fn choughbell_four(
    l1: &[u8],
    l2: &[u8],
    l3: &[u8],
    l4: &[u8],
    doc: &[u8],
    o1: &mut [u8],
    o2: &mut [u8],
    o3: &mut [u8],
    o4: &mut [u8],
    results: &mut [u64; 16],
)
    ensures results_after { results.new ≡ results_of
        (answer_of l1.now doc.now (length o1.old))
        (answer_of l2.now doc.now (length o2.old))
        (answer_of l3.now doc.now (length o3.old))
        (answer_of l4.now doc.now (length o4.old)) }
    ensures o1_after { o1.new ≡ bytes_after l1.now doc.now o1.old }
    ensures o2_after { o2.new ≡ bytes_after l2.now doc.now o2.old }
    ensures o3_after { o3.new ≡ bytes_after l3.now doc.now o3.old }
    ensures o4_after { o4.new ≡ bytes_after l4.now doc.now o4.old }
{
    let a = four::four(l1, l2, l3, l4, doc, o1, o2, o3, o4);
    *results = results_of(a);
}

// The same with four logs that the caller lends, one for each client: room for notes, of any length and whatever stands in it. Only the
// time depends on them, and what stands in them afterwards says nothing.
#[unsafe(no_mangle)]
pub extern "C" fn choughbell_four_with(
    l1: &[u8],
    l2: &[u8],
    l3: &[u8],
    l4: &[u8],
    doc: &[u8],
    o1: &mut [u8],
    o2: &mut [u8],
    o3: &mut [u8],
    o4: &mut [u8],
    g1: &mut [u64],
    g2: &mut [u64],
    g3: &mut [u64],
    g4: &mut [u64],
    results: &mut [u64; 16],
)
    ensures results_after { results.new ≡ results_of
        (answer_of l1.now doc.now (length o1.old))
        (answer_of l2.now doc.now (length o2.old))
        (answer_of l3.now doc.now (length o3.old))
        (answer_of l4.now doc.now (length o4.old)) }
    ensures o1_after { o1.new ≡ bytes_after l1.now doc.now o1.old }
    ensures o2_after { o2.new ≡ bytes_after l2.now doc.now o2.old }
    ensures o3_after { o3.new ≡ bytes_after l3.now doc.now o3.old }
    ensures o4_after { o4.new ≡ bytes_after l4.now doc.now o4.old }
{
    let a = four::four_with(l1, l2, l3, l4, doc, o1, o2, o3, o4, g1, g2, g3, g4);
    *results = results_of(a);
}
