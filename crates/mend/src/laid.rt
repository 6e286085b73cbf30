// The mended document, laid into a buffer where there is room: the bytes that are kept, and then an end tag for each element that is open,
// the innermost first. The names are kept by level, by their places.
//
//     <g><n>Aar       kept 6, level 2     starts  1  4     lens  1  1
//     <g><n></n></g>  the end tag of level 2, then that of level 1
ghost use Rattle.std.specs.Prelude.{◌≡◌, ◌≤◌, length};
ghost use Rattle.document.specs.Levels.{Names, names_of, opened_of};
ghost use Rattle.writer.specs.Wrote.{Wrote};
ghost use Rattle.mend.specs.Mended.{end_tags, mended_by};
ghost use Rattle.mend.specs.Answer.{answer_by, after};

use crate::{MendError, Mended};
use document::Open;
use writer::{copy, end_tag};

// Lays the end tags of what is open at a place, as far as the buffer reaches, and gives the place after them.
fn end_tags(
    doc: &[u8],
    starts: &[usize; Open::LEVELS],
    lens: &[usize; Open::LEVELS],
    opened: Open,
    out: &mut [u8],
    at: usize,
) -> usize
    requires { Names doc.now starts.now lens.now opened × (length doc.now ≤ 16777216) × (at ≤ 16777216) }
    ensures { Wrote out.old at
        (end_tags (names_of doc.now starts.now lens.now opened.level.0)) result out.new }
{
    let mut end = at;
    for level in (0..opened.level.0).rev() {
        let a = starts[level];
        let n = lens[level];
        end = end_tag(out, end, &doc[a..a + n]);
    }
    end
}

// The first bytes of the document, up to a place, and the end tags of what is open there; without a root the fault at that place is
// answered. To measure, the end tags are laid into a buffer of one byte.
pub fn laid(
    doc: &[u8],
    starts: &[usize; Open::LEVELS],
    lens: &[usize; Open::LEVELS],
    opened: Open,
    at: usize,
    out: &mut [u8],
) -> Result<Mended, MendError>
    requires { Names doc.now starts.now lens.now opened × (length doc.now ≤ 16777216) × (at ≤ length doc.now) }
    ensures value { result ≡ answer_by doc.now
        (record { bytes = at; opened = opened_of doc.now starts.now lens.now opened }) at
        (length out.old) }
    ensures out_after { out.new ≡ after result
        (mended_by doc.now
        (record { bytes = at; opened = opened_of doc.now starts.now lens.now opened }))
        out.old }
{
    if !opened.rooted {
        return Err(MendError::NoRoot(at));
    }
    let mut scratch = [0u8; 1];
    let length = end_tags(doc, starts, lens, opened, &mut scratch, at);
    if out.len() < length {
        return Err(MendError::Short(length));
    }
    let end = copy(out, 0, &doc[0..at]);
    end_tags(doc, starts, lens, opened, out, end);
    Ok(Mended {
        length,
        kept: at,
        added: opened.level.0,
    })
}
