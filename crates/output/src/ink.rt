// What is written is laid into the buffer as far as the buffer reaches, and noted as far as there is room for notes.
ghost use Rattle.std.specs.Prelude.{[], ◌∷◌, ◌++◌, ◌+◌, ◌≤◌, ◌<◌, length};
ghost use Rattle.xml.specs.Forest.{start_tag, end_tag};
ghost use Rattle.trees.specs.Grown.{part};
ghost use Rattle.output.specs.Levels.{Inked};

use notes::made::{extend, note};
use writer::{copy, end_tag, put, start_tag};

// The length of what is written, and the number of notes.
#[derive(Drop)]
pub struct Ink {
    pub len: usize,
    pub noted: usize,
}

// Bytes of the document as they stand.
pub fn raw(
    doc: &[u8],
    out: &mut [u8],
    log: &mut [u64],
    len: usize,
    noted: usize,
    at: usize,
    end: usize,
) -> Ink
    requires { (length doc.now ≤ 16777216) × (length log.old ≤ 16777216) × (at ≤ end)
        × (end ≤ length doc.now) × (len < 288230376151711744) }
    ensures { Inked doc.now out.old log.old len noted
        (part doc.now at end) result.len result.noted out.new log.new }
{
    let k = extend(log, noted, at, end - at);
    let l = copy(out, len, &doc[at..end]);
    Ink { len: l, noted: k }
}

// The head of a tag, and its end.
pub fn headed(
    doc: &[u8],
    out: &mut [u8],
    log: &mut [u64],
    len: usize,
    noted: usize,
    at: usize,
    end: usize,
) -> Ink
    requires { (length doc.now ≤ 16777216) × (length log.old ≤ 16777216) × (at ≤ end)
        × (end ≤ length doc.now) × (len < 288230376151711744) }
    ensures { Inked doc.now out.old log.old len noted
        (part doc.now at end ++ (62 ∷ [])) result.len result.noted out.new log.new }
{
    let k = note(log, noted, 3, at, end - at);
    let e = copy(out, len, &doc[at..end]);
    let l = put(out, e, b'>');
    Ink { len: l, noted: k }
}

// The bare start tag of the name of n bytes at a.
pub fn bare(
    doc: &[u8],
    out: &mut [u8],
    log: &mut [u64],
    len: usize,
    noted: usize,
    a: usize,
    n: usize,
) -> Ink
    requires { (length doc.now ≤ 16777216) × (length log.old ≤ 16777216) × (a + n ≤ length doc.now) × (len < 288230376151711744) }
    ensures { Inked doc.now out.old log.old len noted
        (start_tag (part doc.now a (a + n))) result.len result.noted out.new log.new }
{
    let k = note(log, noted, 1, a, n);
    let l = start_tag(out, len, &doc[a..a + n]);
    Ink { len: l, noted: k }
}

// The end tag of that name.
pub fn ends(
    doc: &[u8],
    out: &mut [u8],
    log: &mut [u64],
    len: usize,
    noted: usize,
    a: usize,
    n: usize,
) -> Ink
    requires { (length doc.now ≤ 16777216) × (length log.old ≤ 16777216) × (a + n ≤ length doc.now) × (len < 288230376151711744) }
    ensures { Inked doc.now out.old log.old len noted
        (end_tag (part doc.now a (a + n))) result.len result.noted out.new log.new }
{
    let k = note(log, noted, 2, a, n);
    let l = end_tag(out, len, &doc[a..a + n]);
    Ink { len: l, noted: k }
}
