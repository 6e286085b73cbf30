// Whether a tag has an attribute with a given name and value. The tag is what stands in its head behind `<` and its name: white space, a
// name, `=` and a value, any number of times. Names are compared by their bytes, and so are values, once they are made normal. Where a name
// stands twice, which it does in no accepted document, one of the two is enough.
ghost use Rattle.std.specs.Prelude.{◌≡◌, ◌&&◌, ◌-◌, ◌≤◌, length, drop};
ghost use Rattle.xml.specs.Productions.{same};
ghost use Rattle.tags.specs.Kept.{name_from};
ghost use Rattle.attributes.specs.Held.{normal_at, attributes_in, has_attribute};

use chars::name::name_by;
use chars::text::stands;
use instructions::steps::{eq, space};
use normal::value::value_is;
use points::class::Classes;
use values::value::value;

// Whether the name from a to e is the given one, and the value from v on the text.
fn is(tag: &[u8], a: usize, e: usize, v: usize, name: &[u8], text: &[u8]) -> bool
    requires { (a ≤ e) × (e ≤ length tag.now) }
    ensures { result ≡ same (name_from tag.now a (e - a)) name.now
        && same (normal_at (drop v tag.now)) text.now }
{
    if e - a != name.len() {
        return false;
    }
    if !stands(tag, a, name) {
        return false;
    }
    value_is(tag, v, text)
}

// Whether among the attributes at the front of the tag there is one with the name and the text for its value.
pub fn has(classes: &Classes, tag: &[u8], name: &[u8], text: &[u8]) -> bool
    ensures { result ≡ has_attribute (attributes_in 0 tag.now) name.now text.now }
{
    let mut i: usize = 0;
    // Each turn goes on where the reader of a value ended, so the place is no count.
    loop {
        let Some(a) = space(tag, i) else {
            return false;
        };
        let Some(e) = name_by(classes, tag, a) else {
            return false;
        };
        let Some(v) = eq(tag, e) else {
            return false;
        };
        let Some(end) = value(tag, v) else {
            return false;
        };
        if is(tag, a, e, v, name, text) {
            return true;
        }
        i = end;
    }
}
