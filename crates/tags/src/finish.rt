// [42] ETag: `</`, a name, white space or none, `>`.
// The name's size is looked at once the tag has been read to its end.
ghost use Rattle.std.specs.Prelude.{◌≡◌};
ghost use Rattle.tags.specs.Tag.{end_tag_at};

use crate::Item;
use chars::name::name_by;
use chars::space::after_space;
use chars::text::stands;
use points::class::Classes;
use scans::byte::after_byte;

// The end tag at a place, or its fault.
pub fn end_tag(classes: &Classes, doc: &[u8], at: usize) -> Item
    ensures { result ≡ end_tag_at doc.now at }
{
    if !stands(doc, at, b"</") {
        return Item::Malformed;
    }
    let Some(e) = name_by(classes, doc, at + 2) else {
        return Item::Malformed;
    };
    let k = after_space(doc, e);
    let Some(end) = after_byte(doc, k, b'>') else {
        return Item::Malformed;
    };
    let name = e - (at + 2);
    if name <= Item::NAME {
        return Item::Finish { name, end };
    }
    Item::TooLarge
}
