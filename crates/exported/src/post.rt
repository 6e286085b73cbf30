// A batch for callers in Rust and C: three numbers, and the result in the buffer.
ghost use Rattle.std.specs.Prelude.{◌≡◌, length};
ghost use Rattle.batch.specs.Answer.{batch_of, batch_bytes};
ghost use Rattle.exported.specs.Batch.{batch_numbers_of};

use crate::{Numbers, list_refusal, refusal};
use batch::{Batch, BatchError, cut_all};

// The numbers of the answer on a batch.
fn batch_numbers_of(a: Result<Batch, BatchError>) -> Numbers
    ensures { result ≡ batch_numbers_of a }
{
    match a {
        Ok(batch) => Numbers {
            number: 0,
            second: batch.length as u64,
            third: batch.selected as u64,
        },
        Err(BatchError::List(e)) => list_refusal(e),
        Err(BatchError::BadBatch(o)) => refusal(11, o),
        Err(BatchError::Short(needed)) => refusal(9, needed),
    }
}

// Writes the result of a batch by a list into a buffer, and gives the numbers of the answer.
#[unsafe(no_mangle)]
pub extern "C" fn choughbell_batch(list: &[u8], batch: &[u8], out: &mut [u8]) -> Numbers
    ensures value { result ≡ batch_numbers_of (batch_of list.now batch.now (length out.old)) }
    ensures out_after { out.new ≡ batch_bytes list.now batch.now out.old }
{
    let a = cut_all(list, batch, out);
    batch_numbers_of(a)
}
