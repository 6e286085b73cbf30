// The item at a place, told by its first bytes as document 01 lists them, and read; or its fault, in document 01's order: a document type,
// the item's own production, sizes. Repeated attributes come after those, and are only told.
ghost use Rattle.std.specs.Prelude.{◌≡◌, ◌&&◌, length, get_or, drop, ◌+◌, ◌<◌};
ghost use Rattle.items.specs.Item.{declares, item_at};

use chars::space::is_space;
use chars::text::stands;
use instructions::declaration::declaration;
use instructions::instruction::instruction;
use plain::comment::comment;
use plain::section::section;
use plain::text::text;
use points::class::Classes;
use references::reference::reference;
use tags::Item;
use tags::finish::end_tag;
use tags::tag::tag;

// Whether a declaration stands at a place: `<?xml` and white space, as first item only.
fn is_declaration(doc: &[u8], at: usize, first: bool) -> bool
    ensures { result ≡ first && declares (drop at doc.now) }
{
    if !first {
        return false;
    }
    if !stands(doc, at, b"<?xml") {
        return false;
    }
    if doc.len() - at <= 5 {
        return false;
    }
    is_space(doc[at + 5])
}

// An item that begins with `<?`.
fn queried(classes: &Classes, doc: &[u8], at: usize, first: bool) -> Item
    requires { (at + 1 < length doc.now) × (get_or doc.now at 0 ≡ 0x3C) × (get_or doc.now (at + 1) 0 ≡ 0x3F) }
    ensures { result ≡ item_at first doc.now at }
{
    if is_declaration(doc, at, first) {
        return match declaration(doc, at) {
            Some(e) => Item::Declaration(e),
            None => Item::Malformed,
        };
    }
    match instruction(classes, doc, at) {
        Some(e) => Item::Instruction(e),
        None => Item::Malformed,
    }
}

// An item that begins with `<!`.
fn marked(classes: &Classes, doc: &[u8], at: usize, first: bool) -> Item
    requires { (at + 1 < length doc.now) × (get_or doc.now at 0 ≡ 0x3C) × (get_or doc.now (at + 1) 0 ≡ 0x21) }
    ensures { result ≡ item_at first doc.now at }
{
    if stands(doc, at, b"<!--") {
        return match comment(doc, at) {
            Some(e) => Item::Comment(e),
            None => Item::Malformed,
        };
    }
    if stands(doc, at, b"<![CDATA[") {
        return match section(doc, at) {
            Some(e) => Item::Section(e),
            None => Item::Malformed,
        };
    }
    if stands(doc, at, b"<!DOCTYPE") {
        return Item::Doctype;
    }
    tag(classes, doc, at)
}

// An item that begins with `<`.
fn markup(classes: &Classes, doc: &[u8], at: usize, first: bool) -> Item
    requires { (at < length doc.now) × (get_or doc.now at 0 ≡ 0x3C) }
    ensures { result ≡ item_at first doc.now at }
{
    if doc.len() - at == 1 {
        return tag(classes, doc, at);
    }
    let b = doc[at + 1];
    if b == 0x2F {
        return end_tag(classes, doc, at);
    }
    if b == 0x3F {
        return queried(classes, doc, at, first);
    }
    if b == 0x21 {
        return marked(classes, doc, at, first);
    }
    tag(classes, doc, at)
}

// An item that does not begin with `<`.
fn content(doc: &[u8], at: usize, first: bool) -> Item
    requires { (at < length doc.now) × (get_or doc.now at 0 ≡ 0x3C → ⊥) }
    ensures { result ≡ item_at first doc.now at }
{
    if doc[at] == 0x26 {
        return match reference(doc, at) {
            Some((c, e)) => Item::Reference(c, e),
            None => Item::Malformed,
        };
    }
    match text(doc, at) {
        Some(e) => Item::Text(e),
        None => Item::Malformed,
    }
}

// The item at a place; `first` where no item comes before it.
pub fn item(classes: &Classes, doc: &[u8], at: usize, first: bool) -> Item
    ensures { result ≡ item_at first doc.now at }
{
    if at >= doc.len() {
        return Item::Nothing;
    }
    if doc[at] == 0x3C {
        return markup(classes, doc, at, first);
    }
    content(doc, at, first)
}
