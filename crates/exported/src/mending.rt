// Mending, for callers in Rust and C.
// The answer is document 02's four numbers.
ghost use Rattle.std.specs.Prelude.{◌≡◌, length};
ghost use Rattle.mend.specs.Answer.{answer_of, bytes_after};
ghost use Rattle.exported.specs.Mending.{mended_numbers};

use crate::{FourNumbers, refused};
use mend::{MendError, Mended, mend};

// The numbers of an answer: under 0 the length written, the bytes kept and the end tags added.
fn numbers(a: Result<Mended, MendError>) -> FourNumbers
    ensures { result ≡ mended_numbers a }
{
    match a {
        Ok(mended) => FourNumbers {
            number: 0,
            second: mended.length as u64,
            third: mended.kept as u64,
            fourth: mended.added as u64,
        },
        Err(MendError::TooLong) => refused(4, 0),
        Err(MendError::OtherEncoding(o)) => refused(10, o),
        Err(MendError::NoRoot(fault)) => refused(12, fault),
        Err(MendError::Short(needed)) => refused(9, needed),
    }
}

// Writes a document, mended, into a buffer, and gives the numbers of the answer.
#[unsafe(no_mangle)]
pub extern "C" fn choughbell_mend(doc: &[u8], out: &mut [u8]) -> FourNumbers
    ensures value { result ≡ mended_numbers (answer_of doc.now (length out.old)) }
    ensures out_after { out.new ≡ bytes_after doc.now out.old }
{
    let a = mend(doc, out);
    numbers(a)
}
