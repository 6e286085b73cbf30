// Comments: production [15].
// The first `--` after the opening must be that of `-->`.
ghost use Rattle.std.specs.Prelude.{◌≡◌, drop};
ghost use Rattle.chars.specs.Name.{reading_at};
ghost use Rattle.readers.specs.Plain.{comment_of};

use crate::between::between;

// Where the comment from `at` on ends, if one stands there.
pub fn comment(doc: &[u8], at: usize) -> Option<usize>
    ensures { result ≡ reading_at doc.now at (comment_of (drop at doc.now)) }
{
    between(doc, at, b"<!--", b"--", b"-->")
}
