// Mending, for callers in C.
ghost use Rattle.std.specs.Prelude.{◌≡◌, length};
ghost use Rattle.mend.specs.Answer.{answer_of, bytes_after};
ghost use Rattle.exported.specs.Mending.{mended_numbers};

use exported::FourNumbers;

// Writes a document, mended, into a buffer, and gives the numbers of the answer.
#[unsafe(no_mangle)]
pub extern "C" fn choughbell_mend(doc: &[u8], out: &mut [u8]) -> FourNumbers
    ensures value { result ≡ mended_numbers (answer_of doc.now (length out.old)) }
    ensures out_after { out.new ≡ bytes_after doc.now out.old }
{
    exported::mending::choughbell_mend(doc, out)
}
