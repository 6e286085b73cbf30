// The start tags of elements that waited: bare, from the outermost to the innermost.
// Their names are kept by level, by their places.
ghost use Rattle.std.specs.Prelude.{◌+◌, ◌-◌, ◌≤◌, ◌<◌, length};
ghost use Rattle.trees.specs.Engine.{chain};
ghost use Rattle.output.specs.Levels.{name_at, span, Placed, Inked};

use crate::ink::{Ink, bare};
use document::Open;

// Lays and notes the start tags of the levels after lo up to hi.
pub fn open_chain(
    doc: &[u8],
    starts: &[usize; Open::LEVELS],
    lens: &[usize; Open::LEVELS],
    out: &mut [u8],
    log: &mut [u64],
    len: usize,
    noted: usize,
    lo: usize,
    hi: usize,
) -> Ink
    requires { (lo ≤ hi) × (len < 144115188075855872) × (length doc.now ≤ 16777216) × (length log.old ≤ 16777216)
        × Placed doc.now starts.now lens.now hi }
    ensures inked { Inked doc.now out.old log.old len noted
        (chain (span (name_at doc.now starts.now lens.now) lo (hi - lo))) result.len result.noted
        out.new log.new }
    ensures len_bound { result.len ≤ len + 1073741952 }
{
    let mut len = len;
    let mut noted = noted;
    for k in lo..hi {
        let r = bare(doc, out, log, len, noted, starts[k], lens[k]);
        len = r.len;
        noted = r.noted;
    }
    Ink { len, noted }
}
