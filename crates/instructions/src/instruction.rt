// [16] PI: `<?`, a target that is not `xml` in any case, and then `?>`, or white space and all up to the first `?>`.
// The class table is lent, since names are read by it.
ghost use Rattle.std.specs.Prelude.{◌≡◌, ◌-◌, ◌≤◌, length, take, drop};
ghost use Rattle.chars.specs.Name.{reading_at};
ghost use Rattle.readers.specs.Named.{is_xml, instruction_end, instruction_of};
ghost use Rattle.readers.specs.Answer.{Answers};

use crate::steps::is_one_of;
use chars::name::name_by;
use chars::space::is_space;
use chars::text::stands;
use points::class::Classes;
use scans::seek::seek;

// Whether the bytes from a place to another are `xml`, in any case.
fn is_xml(doc: &[u8], from: usize, to: usize) -> bool
    requires { (from ≤ to) × (to ≤ length doc.now) }
    ensures { result ≡ is_xml (take (to - from) (drop from doc.now)) }
{
    if to - from != 3 {
        return false;
    }
    is_one_of(doc[from], b'X', b'x')
        & is_one_of(doc[from + 1], b'M', b'm')
        & is_one_of(doc[from + 2], b'L', b'l')
}

// After the target: `?>`, or white space and all up to the first `?>`.
fn instruction_end(doc: &[u8], at: usize) -> Option<usize>
    requires { at ≤ length doc.now }
    ensures { Answers doc.now at result (instruction_end (drop at doc.now)) }
{
    if stands(doc, at, b"?>") {
        return Some(at + 2);
    }
    if at >= doc.len() {
        return None;
    }
    if !is_space(doc[at]) {
        return None;
    }
    let k = seek(doc, at, b"?>");
    if stands(doc, k, b"?>") {
        return Some(k + 2);
    }
    None
}

// The instruction at a place.
pub fn instruction(classes: &Classes, doc: &[u8], at: usize) -> Option<usize>
    ensures { result ≡ reading_at doc.now at (instruction_of (drop at doc.now)) }
{
    if !stands(doc, at, b"<?") {
        return None;
    }
    let e = name_by(classes, doc, at + 2)?;
    if is_xml(doc, at + 2, e) {
        return None;
    }
    instruction_end(doc, e)
}
