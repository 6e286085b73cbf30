// The packed list for callers in Rust and C: from text to the packed form, and back. The three numbers are those of document 02, Q-7: 0, 9,
// 1 to 3 of the text, 13 of the packed form; the third is always 0.
ghost use Rattle.std.specs.Prelude.{◌≡◌, length};
ghost use Rattle.packed.specs.Answer.{pack_answer, pack_bytes, unpack_answer, unpack_bytes};
ghost use Rattle.exported.specs.Packing.{packing_of};

use crate::{Numbers, list_refusal, refusal};
use packed::PackError;

// The numbers of an answer.
fn packing_numbers(a: Result<usize, PackError>) -> Numbers
    ensures { result ≡ packing_of a }
{
    match a {
        Ok(length) => refusal(0, length),
        Err(PackError::List(e)) => list_refusal(e),
        Err(PackError::NotPacked) => refusal(13, 0),
        Err(PackError::Short(needed)) => refusal(9, needed),
    }
}

// Writes the packed form of a list into a buffer, and gives the numbers of the answer.
#[unsafe(no_mangle)]
pub extern "C" fn choughbell_pack(text: &[u8], out: &mut [u8]) -> Numbers
    ensures value { result ≡ packing_of (pack_answer text.now (length out.old)) }
    ensures out_after { out.new ≡ pack_bytes text.now out.old }
{
    let a = packed::pack(text, out);
    packing_numbers(a)
}

// Writes the text of a packed list into a buffer, and gives the numbers of the answer.
#[unsafe(no_mangle)]
pub extern "C" fn choughbell_unpack(packed: &[u8], out: &mut [u8]) -> Numbers
    ensures value { result ≡ packing_of (unpack_answer packed.now (length out.old)) }
    ensures out_after { out.new ≡ unpack_bytes packed.now out.old }
{
    let a = packed::unpack(packed, out);
    packing_numbers(a)
}
