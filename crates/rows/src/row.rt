// A record, and the header: "The first field is the names from the root joined by `/`. The second is the text directly in the element."
ghost use Rattle.std.specs.Prelude.{[], ◌∷◌, ◌+◌, ◌≤◌, ◌<◌, length};
ghost use Rattle.document.specs.Levels.{names_of};
ghost use Rattle.writer.specs.Wrote.{Wrote};
ghost use Rattle.rows.specs.Field.{path_of, record_of, header as header_of};
ghost use Rattle.rows.specs.Laid.{joint, PlainNames, element_text};

use crate::gather::lay_field;
use document::Open;
use points::class::Classes;
use writer::{copy, put};

// What joins a name to those of the k levels above it.
fn lay_joint(k: usize, out: &mut [u8], to: usize) -> usize
    requires { to + 1 ≤ 18446744073709551615 }
    ensures wrote { Wrote out.old to (joint k) result out.new }
    ensures upper_bound { result ≤ to + 1 }
{
    if k == 0 {
        return to;
    }
    put(out, to, b'/')
}

// The names of the first `level` levels joined by `/`. A name has no byte for which a field is quoted.
fn lay_path(
    doc: &[u8],
    starts: &[usize; Open::LEVELS],
    lens: &[usize; Open::LEVELS],
    level: usize,
    out: &mut [u8],
    to: usize,
) -> usize
    requires { PlainNames doc.now starts.now lens.now level × (length doc.now ≤ 16777216) × (to < 2305843009213693952) }
    ensures wrote { Wrote out.old to (path_of (names_of doc.now starts.now lens.now level)) result
        out.new }
    ensures upper_bound { result ≤ to + 16448 }
{
    let mut place = to;
    for k in 0..level {
        let from = lay_joint(k, out, place);
        let a = starts[k];
        let e = a + lens[k];
        place = copy(out, from, &doc[a..e]);
    }
    place
}

// The line end of a record.
fn lay_end(out: &mut [u8], to: usize) -> usize
    requires { to + 2 ≤ 18446744073709551615 }
    ensures { Wrote out.old to (0xD ∷ 0xA ∷ []) result out.new }
{
    let a = put(out, to, 0x0D);
    put(out, a, 0x0A)
}

// The record of the element to which the names of the first `level` levels lead, and whose tag ends at a place; an empty tag has no text.
pub fn lay_record(
    table: &Classes,
    doc: &[u8],
    starts: &[usize; Open::LEVELS],
    lens: &[usize; Open::LEVELS],
    level: usize,
    end: usize,
    empty: bool,
    out: &mut [u8],
    to: usize,
) -> usize
    requires { (length doc.now ≤ 16777216) × (end ≤ length doc.now) × PlainNames doc.now starts.now lens.now level
        × (to < 1152921504606846976) }
    ensures wrote { Wrote out.old to
        (record_of (names_of doc.now starts.now lens.now level)
        (element_text empty doc.now end)) result out.new }
    ensures upper_bound { result ≤ to + 268435456 }
{
    let a = lay_path(doc, starts, lens, level, out, to);
    let b = put(out, a, b',');
    if empty {
        return lay_end(out, b);
    }
    let c = lay_field(table, doc, end, out, b);
    lay_end(out, c)
}

// "the header `path,text`"
pub fn lay_header(out: &mut [u8]) -> usize
    ensures { Wrote out.old 0 header_of result out.new }
{
    copy(out, 0, b"path,text\r\n")
}
