// [40] STag and [44] EmptyElemTag: `<`, a name, attributes, white space or none, and then `>` or `/>`.
// Sizes are looked at once the tag has been read to its end.
ghost use Rattle.std.specs.Prelude.{◌≡◌, cond};
ghost use Rattle.tags.specs.Tag.{tag_at};
ghost use Rattle.tags.specs.declared.Item.TheVariants.{Start, TooLarge};

use crate::Item;
use crate::gather::gather;
use chars::name::name_by;
use chars::space::after_space;
use chars::text::stands;
use points::class::Classes;

// A tag within the sizes, or one that is too large.
fn sized(small: bool, name: usize, head: usize, end: usize, empty: bool, twice: bool) -> Item
    ensures { result ≡ cond small (Start name head end empty twice) TooLarge }
{
    if !small {
        return Item::TooLarge;
    }
    Item::Start {
        name,
        head,
        end,
        empty,
        twice,
    }
}

// The start tag or empty tag at a place, or its fault.
pub fn tag(classes: &Classes, doc: &[u8], at: usize) -> Item
    ensures { result ≡ tag_at doc.now at }
{
    if !stands(doc, at, b"<") {
        return Item::Malformed;
    }
    let Some(e) = name_by(classes, doc, at + 1) else {
        return Item::Malformed;
    };
    let held = gather(classes, doc, e);
    let head = after_space(doc, held.end);
    let name = e - (at + 1);
    let small = (name <= Item::NAME) & held.small;
    if stands(doc, head, b">") {
        return sized(small, name, head, head + 1, false, held.twice);
    }
    if stands(doc, head, b"/>") {
        return sized(small, name, head, head + 2, true, held.twice);
    }
    Item::Malformed
}
