// The attributes of a tag: white space, a name, `=` and a value, any number of times. The names' places are kept, up to 32 of them, so that
// a name that stands twice is found by its bytes. A tag with more than 32 attributes is read to its end all the same, since a broken
// production comes before a size.
ghost use Rattle.std.specs.Prelude.{◌+◌, ◌≤◌, ◌<◌, length, drop};
ghost use Rattle.readers.specs.Named.{attribute_of};
ghost use Rattle.tags.specs.Kept.{Keeps, Seen, Noted, AttributeIs, AttributesAre};

use crate::Item;
use crate::names::same_name;
use chars::name::name_by;
use instructions::steps::{eq, space};
use points::class::Classes;
use values::value::value;

// An attribute with the white space before it: its name's place and length, and where it ends.
#[derive(Clone, Copy)]
pub struct Attribute {
    pub name: usize,
    pub len: usize,
    pub end: usize,
}

// Where the attributes end; whether they are within the sizes, and if so whether a name stands twice.
#[derive(Drop)]
pub struct Attributes {
    pub end: usize,
    pub small: bool,
    pub twice: bool,
}

// Whether the name of n bytes at a is one of those kept.
fn seen(
    doc: &[u8],
    starts: &[usize; Item::ATTRIBUTES],
    lens: &[usize; Item::ATTRIBUTES],
    count: usize,
    a: usize,
    n: usize,
) -> bool
    requires { Keeps doc.now starts.now lens.now count × (count < 32) × (a + n ≤ length doc.now) }
    ensures { Seen doc.now starts.now lens.now count a n result }
{
    for k in 0..count {
        if same_name(doc, a, n, starts[k], lens[k]) {
            return true;
        }
    }
    false
}

// The name of n bytes at a is kept, where there is room for it; whether it was there before.
pub fn note(
    doc: &[u8],
    starts: &mut [usize; Item::ATTRIBUTES],
    lens: &mut [usize; Item::ATTRIBUTES],
    count: usize,
    a: usize,
    n: usize,
) -> bool
    requires { Keeps doc.now starts.old lens.old count × (a + n ≤ length doc.now) }
    ensures { Noted doc.now starts.old lens.old count a n starts.new lens.new result }
{
    if count >= Item::ATTRIBUTES {
        return false;
    }
    let twice = seen(doc, starts, lens, count, a, n);
    starts[count] = a;
    lens[count] = n;
    twice
}

// S Attribute at a place.
fn next_attribute(classes: &Classes, doc: &[u8], at: usize) -> Option<Attribute>
    requires { at ≤ length doc.now }
    ensures { AttributeIs doc.now at result (attribute_of (drop at doc.now)) }
{
    let a = space(doc, at)?;
    let e = name_by(classes, doc, a)?;
    let v = eq(doc, e)?;
    let end = value(doc, v)?;
    Some(Attribute {
        name: a,
        len: e - a,
        end,
    })
}

// The attributes from a place on.
pub fn gather(classes: &Classes, doc: &[u8], at: usize) -> Attributes
    requires { at ≤ length doc.now }
    ensures { AttributesAre doc.now at result }
{
    let mut starts = [0usize; Item::ATTRIBUTES];
    let mut lens = [0usize; Item::ATTRIBUTES];
    let mut count: usize = 0;
    let mut small = true;
    let mut twice = false;
    let mut i = at;
    // Each turn goes on where the reader of an attribute ended, so the place is no count.
    loop {
        match next_attribute(classes, doc, i) {
            Some(Attribute { name, len, end }) => {
                let again = note(doc, &mut starts, &mut lens, count, name, len);
                twice = twice | again;
                small = small & (len <= Item::NAME);
                count += 1;
                i = end;
            }
            None => {
                return Attributes {
                    end: i,
                    small: (count <= Item::ATTRIBUTES) & small,
                    twice,
                };
            }
        }
    }
}
