// Notes are laid into a buffer.
ghost use Rattle.std.specs.Prelude.{◌+◌, ◌≤◌, ◌<◌, length};
ghost use Rattle.writer.specs.Wrote.{Wrote};
ghost use Rattle.notes.specs.Notes.{from_of, size_of, note_text, text_of, Within};

use crate::word::{from_of, size_of};
use writer::{copy, end_tag, put, start_tag};

// Lays the text of one note.
fn lay(doc: &[u8], out: &mut [u8], len: usize, word: u64) -> usize
    requires { (length doc.now ≤ 16777216) × (from_of word + size_of word ≤ length doc.now) × (len < 144115188075855872) }
    ensures wrote { Wrote out.old len (note_text doc.now word) result out.new }
    ensures upper_bound { result ≤ len + 16777219 }
{
    let a = from_of(word);
    let n = size_of(word);
    let kind = word % 4;
    if kind == 0 {
        return copy(out, len, &doc[a..a + n]);
    }
    if kind == 1 {
        return start_tag(out, len, &doc[a..a + n]);
    }
    if kind == 2 {
        return end_tag(out, len, &doc[a..a + n]);
    }
    let e = copy(out, len, &doc[a..a + n]);
    put(out, e, b'>')
}

// Lays the text of the first so many notes, and gives its length.
pub fn replay(doc: &[u8], log: &[u64], noted: usize, out: &mut [u8]) -> usize
    requires { (length doc.now ≤ 16777216) × (length log.now ≤ 16777216) × (noted ≤ length log.now)
        × Within doc.now log.now noted }
    ensures { Wrote out.old 0 (text_of doc.now log.now noted) result out.new }
{
    let mut len: usize = 0;
    for &word in &log[..noted] {
        len = lay(doc, out, len, word);
    }
    len
}
