// What stands between two texts: the common shape of comments and CDATA sections.
// Any bytes may stand between them.
ghost use Rattle.std.specs.Prelude.{◌≡◌, ◌<◌, length, drop};
ghost use Rattle.chars.specs.Name.{reading_at};
ghost use Rattle.plain.specs.Between.{between_of};

use chars::text::stands;
use scans::seek::seek;

// Where the item from `at` on ends that begins with `first` and goes up to the first place of `stop`, where `last` must stand.
pub fn between(doc: &[u8], at: usize, first: &[u8], stop: &[u8], last: &[u8]) -> Option<usize>
    requires { (0 < length first.now) × (0 < length last.now) }
    ensures { result ≡ reading_at doc.now at
        (between_of first.now stop.now last.now (drop at doc.now)) }
{
    if !stands(doc, at, first) {
        return None;
    }
    let i = seek(doc, at + first.len(), stop);
    if !stands(doc, i, last) {
        return None;
    }
    Some(i + last.len())
}
