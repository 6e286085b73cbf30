// The functions of the library `clients` for callers in C, whose header is host/include/choughbell.h: a slice is passed as a pointer and
// then a length. Each calls the library's function of its name, and states that function's clauses again.
#![tactic(auto)]

ghost use Rattle.std.specs.Prelude.{◌≡◌, length};
ghost use Rattle.cutter.specs.Answer.{answer_of, bytes_after};
ghost use Rattle.clients.specs.Results.{results_of};

// Writes the cut of a document by each of four lists into its own buffer, and gives the numbers of each answer.
#[unsafe(no_mangle)]
pub extern "C" fn choughbell_four(
    l1: &[u8],
    l2: &[u8],
    l3: &[u8],
    l4: &[u8],
    doc: &[u8],
    o1: &mut [u8],
    o2: &mut [u8],
    o3: &mut [u8],
    o4: &mut [u8],
    results: &mut [u64; 16],
)
    ensures results_after { results.new ≡ results_of
        (answer_of l1.now doc.now (length o1.old))
        (answer_of l2.now doc.now (length o2.old))
        (answer_of l3.now doc.now (length o3.old))
        (answer_of l4.now doc.now (length o4.old)) }
    ensures o1_after { o1.new ≡ bytes_after l1.now doc.now o1.old }
    ensures o2_after { o2.new ≡ bytes_after l2.now doc.now o2.old }
    ensures o3_after { o3.new ≡ bytes_after l3.now doc.now o3.old }
    ensures o4_after { o4.new ≡ bytes_after l4.now doc.now o4.old }
{
    clients::choughbell_four(l1, l2, l3, l4, doc, o1, o2, o3, o4, results)
}

// The same with four logs that the caller lends, one for each client.
#[unsafe(no_mangle)]
pub extern "C" fn choughbell_four_with(
    l1: &[u8],
    l2: &[u8],
    l3: &[u8],
    l4: &[u8],
    doc: &[u8],
    o1: &mut [u8],
    o2: &mut [u8],
    o3: &mut [u8],
    o4: &mut [u8],
    g1: &mut [u64],
    g2: &mut [u64],
    g3: &mut [u64],
    g4: &mut [u64],
    results: &mut [u64; 16],
)
    ensures results_after { results.new ≡ results_of
        (answer_of l1.now doc.now (length o1.old))
        (answer_of l2.now doc.now (length o2.old))
        (answer_of l3.now doc.now (length o3.old))
        (answer_of l4.now doc.now (length o4.old)) }
    ensures o1_after { o1.new ≡ bytes_after l1.now doc.now o1.old }
    ensures o2_after { o2.new ≡ bytes_after l2.now doc.now o2.old }
    ensures o3_after { o3.new ≡ bytes_after l3.now doc.now o3.old }
    ensures o4_after { o4.new ≡ bytes_after l4.now doc.now o4.old }
{
    clients::choughbell_four_with(l1, l2, l3, l4, doc, o1, o2, o3, o4, g1, g2, g3, g4, results)
}
