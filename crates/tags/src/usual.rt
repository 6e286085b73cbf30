// Start tags and empty tags as they mostly stand: names of ASCII characters; white space before each attribute, and none around `=`; values
// without references; no name twice. Such a tag is read by words and in one go. Any other is left to the reader of tags, which has the last
// word on all that is at fault.
//
//     <place id="17" name='Aar'>      read here
//     <place id = "17">               left: white space around `=`
//     <place name="A &amp; B">        left: a reference
//     <pláce>                         left: a name that is not ASCII
ghost use Rattle.std.specs.Prelude.{◌≡◌, ◌≤◌, ◌<◌, length};
ghost use Rattle.tags.specs.Tag.{tag_at};
ghost use Rattle.tags.specs.Usual.{ToldName, ToldMark, ToldAttribute, ToldTag};

use crate::Item;
use crate::gather::{Attribute, note};
use crate::tag::tag;
use chars::name::ascii8;
use chars::text::stands;
use instructions::steps::space;
use points::class::Classes;
use scans::mark::before16;

// Where the name at a place ends, if it has ASCII characters only and an ASCII byte follows, and words reach so far; else 0, which says
// nothing.
fn name_end(classes: &Classes, doc: &[u8], at: usize) -> usize
    ensures { ToldName doc.now at result }
{
    if at >= doc.len() {
        return 0;
    }
    let b = doc[at];
    if b >= 0x80 {
        return 0;
    }
    if !classes.starts(b as u32) {
        return 0;
    }
    let mut i = at;
    // Each turn goes on where the word before ended or the name did, so the place is no count.
    while doc.len() - i >= 8 {
        let n = ascii8(doc, i);
        i += n;
        if n < 8 {
            if doc[i] < 0x80 {
                return i;
            }
            return 0;
        }
    }
    0
}

// The first place from `at` on with `<`, `&` or q, as far as words reach; else the end, which says nothing.
fn value_end(doc: &[u8], at: usize, q: u8) -> usize
    requires { (at ≤ length doc.now) × (q < 0x80) }
    ensures { ToldMark q doc.now at result }
{
    let mut i = at;
    // Each turn takes a block while one is left: a range by steps of 16 would need the place of the last, and be no plainer.
    while doc.len() - i >= 16 {
        let n = before16(doc, i, q);
        if n < 16 {
            return i + n;
        }
        i += 16;
    }
    doc.len()
}

// S Attribute at a place, as it mostly stands; else none, which says nothing.
fn usual_attribute(classes: &Classes, doc: &[u8], at: usize) -> Option<Attribute>
    requires { at ≤ length doc.now }
    ensures { ToldAttribute doc.now at result }
{
    let a = space(doc, at)?;
    let e = name_end(classes, doc, a);
    if e == 0 {
        return None;
    }
    if doc.len() - e < 2 {
        return None;
    }
    if doc[e] != b'=' {
        return None;
    }
    let q = doc[e + 1];
    if (q != 0x22) & (q != 0x27) {
        return None;
    }
    let z = value_end(doc, e + 2, q);
    if z >= doc.len() {
        return None;
    }
    if doc[z] != q {
        return None;
    }
    Some(Attribute {
        name: a,
        len: e - a,
        end: z + 1,
    })
}

// The start tag or empty tag at a place, as it mostly stands; else a fault, which says nothing.
fn usual_tag(classes: &Classes, doc: &[u8], at: usize) -> Item
    ensures { ToldTag doc.now at result }
{
    if !stands(doc, at, b"<") {
        return Item::Malformed;
    }
    let e = name_end(classes, doc, at + 1);
    if e == 0 {
        return Item::Malformed;
    }
    let name = e - (at + 1);
    if name > Item::NAME {
        return Item::Malformed;
    }
    let mut starts = [0usize; Item::ATTRIBUTES];
    let mut lens = [0usize; Item::ATTRIBUTES];
    let mut count: usize = 0;
    let mut i = e;
    // Each turn goes on where the reader of an attribute ended, so the place is no count.
    loop {
        if stands(doc, i, b">") {
            return Item::Start {
                name,
                head: i,
                end: i + 1,
                empty: false,
                twice: false,
            };
        }
        if stands(doc, i, b"/>") {
            return Item::Start {
                name,
                head: i,
                end: i + 2,
                empty: true,
                twice: false,
            };
        }
        match usual_attribute(classes, doc, i) {
            Some(Attribute { name: a, len, end }) => {
                if len > Item::NAME {
                    return Item::Malformed;
                }
                if count >= Item::ATTRIBUTES {
                    return Item::Malformed;
                }
                if note(doc, &mut starts, &mut lens, count, a, len) {
                    return Item::Malformed;
                }
                count += 1;
                i = end;
            }
            None => {
                return Item::Malformed;
            }
        }
    }
}

// The start tag or empty tag at a place, or its fault.
pub fn next_tag(classes: &Classes, doc: &[u8], at: usize) -> Item
    ensures { result ≡ tag_at doc.now at }
{
    let told = usual_tag(classes, doc, at);
    if let Item::Start {
        name: _,
        head: _,
        end: _,
        empty: _,
        twice: _,
    } = told
    {
        return told;
    }
    tag(classes, doc, at)
}
