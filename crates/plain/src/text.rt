// Text between markup: production [14], up to the next `<`, `&` or the end.
// `]]>` may not stand in it; a `]` alone may.
ghost use Rattle.std.specs.Prelude.{◌≡◌, drop};
ghost use Rattle.chars.specs.Name.{reading_at};
ghost use Rattle.readers.specs.Plain.{text_of};

use chars::text::stands;
use scans::mark::to_mark;

// Where the text from `at` on ends: `at` itself where there is none, also past the end; or none, where `]]>` stands in it.
pub fn text(doc: &[u8], at: usize) -> Option<usize>
    ensures { result ≡ reading_at doc.now at (text_of (drop at doc.now)) }
{
    // Each turn goes on where the scan ended, so the place is no count.
    let mut i = to_mark(doc, at, b']');
    while i < doc.len() {
        if doc[i] != b']' {
            return Some(i);
        }
        if stands(doc, i, b"]]>") {
            return None;
        }
        i = to_mark(doc, i + 1, b']');
    }
    Some(i)
}
