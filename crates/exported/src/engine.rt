// The plain engine for callers in Rust and C: three numbers and the buffer, as the first engine has them. It counts no name tests.
ghost use Rattle.std.specs.Prelude.{◌≡◌, length};
ghost use Rattle.cutter.specs.Answer.{answer_of, bytes_after};
ghost use Rattle.exported.specs.Plain.{plain_of, three_of};

use crate::{Numbers, cut_refusal};
use descent::answer::Cut;
use descent::cut;
use refusals::CutError;

// The numbers of an answer.
fn three_of(a: Result<Cut, CutError>) -> Numbers
    ensures { result ≡ plain_of a }
{
    match a {
        Ok(cut) => Numbers {
            number: 0,
            second: cut.length as u64,
            third: cut.selected as u64,
        },
        Err(e) => cut_refusal(e),
    }
}

// Writes the cut of a document by a list into a buffer, and gives the first three numbers of `choughbell_cut`.
#[unsafe(no_mangle)]
pub extern "C" fn choughbell_plain(list: &[u8], doc: &[u8], out: &mut [u8]) -> Numbers
    ensures value { result ≡ three_of (answer_of list.now doc.now (length out.old)) }
    ensures out_after { out.new ≡ bytes_after list.now doc.now out.old }
{
    let a = cut(list, doc, out);
    three_of(a)
}
