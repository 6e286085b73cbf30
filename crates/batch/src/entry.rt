// One document of a batch: the length of its entry, and the entry laid. A document that is refused has the length 0.
ghost use Rattle.std.specs.Prelude.{◌≡◌, ◌++◌, ◌+◌, ◌≤◌, ◌<◌, length, drop};
ghost use Rattle.matcher.specs.Fit.{Serves};
ghost use Rattle.bundle.specs.Batch.{big};
ghost use Rattle.batch.specs.Answer.{entry_of, selected_of};
ghost use Rattle.batch.specs.Told.{told_of, part_of};

use bundle::lay_length;
use compiled::Compiled;
use cutter::answer::Cut;
use cutter::cut_by_with;
use refusals::CutError;

// How many bytes, and how many elements selected: of one entry behind its length, or of a whole result.
#[derive(Drop)]
pub struct Part {
    pub length: usize,
    pub selected: usize,
}

// What a document's answer says of its entry; where there was no room, its length.
fn told(a: Result<Cut, CutError>) -> Part
    ensures { result ≡ told_of a }
{
    match a {
        Ok(cut) => Part {
            length: cut.length,
            selected: cut.selected,
        },
        Err(CutError::Short(length)) => Part {
            length,
            selected: 0,
        },
        Err(CutError::List(_)) => Part {
            length: 0,
            selected: 0,
        },
        Err(CutError::Document(_)) => Part {
            length: 0,
            selected: 0,
        },
    }
}

// The length of a document's entry, without a buffer: a cut into no room says how long it is.
pub fn measured(list: &[u8], t: &Compiled, doc: &[u8], log: &mut [u64]) -> usize
    requires { Serves list.now t.now }
    ensures { result ≡ length (entry_of list.now doc.now) }
{
    let mut scratch = [0u8; 1];
    let part = told(cut_by_with(list, t, doc, &mut scratch, log));
    part.length
}

// The entry of a document is laid at the front of a buffer that has room for it: the cut behind its length.
pub fn lay_entry(list: &[u8], t: &Compiled, doc: &[u8], out: &mut [u8], log: &mut [u64]) -> Part
    requires { Serves list.now t.now × (4 + length (entry_of list.now doc.now) ≤ length out.old) }
    ensures value { result ≡ part_of (entry_of list.now doc.now) (selected_of list.now doc.now) }
    ensures out_after { out.new ≡ big (length (entry_of list.now doc.now))
        ++ entry_of list.now doc.now
        ++ drop (4 + length (entry_of list.now doc.now)) out.old }
{
    let part = told(cut_by_with(list, t, doc, &mut out[4..], log));
    let length = part.length;
    lay_length(out, length);
    part
}
