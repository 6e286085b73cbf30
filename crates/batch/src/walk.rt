// The documents of a batch one by one: the length of the result, and the result laid. Both walks know that the layout is sound, so each
// length is whole.
//
//     batch    1 | n n n n | document | n n n n | document ..
//     result   1 | m m m m | cut | 0 0 0 0 | ..                    the second document is refused
ghost use Rattle.std.specs.Prelude.{◌≡◌, ◌++◌, ◌≤◌, length, drop, Ok};
ghost use Rattle.matcher.specs.Fit.{Serves};
ghost use Rattle.bundle.specs.Batch.{layout_of};
ghost use Rattle.batch.specs.Answer.{result_of, selected_in};
ghost use Rattle.batch.specs.Told.{part_of};

use crate::entry::{Part, lay_entry, measured};
use bundle::length_at;
use compiled::Compiled;

// The length of the whole result.
pub fn measure(list: &[u8], t: &Compiled, batch: &[u8], log: &mut [u64]) -> usize
    requires { Serves list.now t.now × (layout_of batch.now ≡ Ok tt) }
    ensures { result ≡ length (result_of list.now batch.now) }
{
    let mut needed: usize = 1;
    let mut at: usize = 1;

    // Each turn goes on where the document before ended, so the place is no count.
    while at < batch.len() {
        let from = at + 4;
        let to = from + length_at(batch, at);
        needed = needed + 4 + measured(list, t, &batch[from..to], log);
        at = to;
    }
    needed
}

// The whole result is laid at the front of a buffer that has room for it.
pub fn fill(list: &[u8], t: &Compiled, batch: &[u8], out: &mut [u8], log: &mut [u64]) -> Part
    requires { Serves list.now t.now × (layout_of batch.now ≡ Ok tt)
        × (length (result_of list.now batch.now) ≤ length out.old) }
    ensures value { result ≡ part_of (result_of list.now batch.now) (selected_in list.now batch.now) }
    ensures out_after { out.new ≡ result_of list.now batch.now
        ++ drop (length (result_of list.now batch.now)) out.old }
{
    out[0] = 1;
    let mut put: usize = 1;
    let mut selected: usize = 0;
    let mut at: usize = 1;

    // As in `measure`, the place is no count.
    while at < batch.len() {
        let from = at + 4;
        let to = from + length_at(batch, at);
        let part = lay_entry(list, t, &batch[from..to], &mut out[put..], log);
        put = put + 4 + part.length;
        selected = selected + part.selected;
        at = to;
    }
    Part {
        length: put,
        selected,
    }
}
