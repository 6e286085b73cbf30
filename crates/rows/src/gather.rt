// The text directly in an element, gathered from behind its start tag to its end: "text, references and CDATA whose innermost open element
// it is". It may go on behind elements inside it, which are passed over by counting how deep they go.
ghost use Rattle.std.specs.Prelude.{◌≡◌, ◌+◌, ◌≤◌, ◌<◌, length};
ghost use Rattle.writer.specs.Wrote.{Wrote};
ghost use Rattle.rows.specs.Field.{field};
ghost use Rattle.rows.specs.Tokens.{text_from};
ghost use Rattle.rows.specs.Laid.{Lays, start_part, part_of};

use crate::field::{Laid, quote};
use crate::said::lay_said;
use document::place::end_of;
use items::told::item;
use points::class::Classes;
use tags::Item;

// What an item is to a text that is gathered: a start tag; an end tag; an empty tag; any other item; or none, which ends it too.
#[derive(Drop)]
enum Part {
    Opens,
    Closes,
    Whole,
    Aside,
    Stops,
}

// A start tag, or an empty one.
fn start_part(empty: bool) -> Part
    ensures { result ≡ start_part empty }
{
    if empty {
        return Part::Whole;
    }
    Part::Opens
}

// An item of any kind.
fn part_of(item: Item) -> Part
    ensures { result ≡ part_of item }
{
    match item {
        Item::Declaration(_) => Part::Aside,
        Item::Instruction(_) => Part::Aside,
        Item::Comment(_) => Part::Aside,
        Item::Section(_) => Part::Aside,
        Item::Reference(_, _) => Part::Aside,
        Item::Text(_) => Part::Aside,
        Item::Start {
            name: _,
            head: _,
            end: _,
            empty,
            twice: _,
        } => start_part(empty),
        Item::Finish { name: _, end: _ } => Part::Closes,
        Item::Doctype => Part::Stops,
        Item::Malformed => Part::Stops,
        Item::TooLarge => Part::Stops,
        Item::Nothing => Part::Stops,
    }
}

// From a place behind an element's start tag on, in any document: where no item is left, or one is broken, the text ends too.
fn lay_text(table: &Classes, doc: &[u8], at: usize, quoted: bool, out: &mut [u8], to: usize) -> Laid
    requires { (length doc.now ≤ 16777216) × (at ≤ length doc.now) × (to < 4611686018427387904) }
    ensures lays { Lays quoted out.old to (text_from 0 doc.now at) result out.new }
    ensures to_bound { result.to ≤ to + 134217728 }
{
    let mut i = at;
    let mut depth: usize = 0;
    let mut place = to;
    let mut special = false;
    // Each turn goes on where the item ended, so the place is no count.
    loop {
        let next = item(table, doc, i, false);
        let end = end_of(i, next);
        match part_of(next) {
            Part::Stops => {
                return Laid { to: place, special };
            }
            Part::Closes => {
                if depth == 0 {
                    return Laid { to: place, special };
                }
                depth -= 1;
                i = end;
                continue;
            }
            Part::Opens => {
                depth += 1;
                i = end;
                continue;
            }
            Part::Whole => {
                i = end;
                continue;
            }
            Part::Aside => {
                if depth == 0 {
                    let laid = lay_said(&doc[i..end], quoted, out, place);
                    place = laid.to;
                    special = special | laid.special;
                }
                i = end;
            }
        }
    }
}

// The field of that text.
pub fn lay_field(table: &Classes, doc: &[u8], at: usize, out: &mut [u8], to: usize) -> usize
    requires { (length doc.now ≤ 16777216) × (at ≤ length doc.now) × (to < 2305843009213693952) }
    ensures wrote { Wrote out.old to (field (text_from 0 doc.now at)) result out.new }
    ensures upper_bound { result ≤ to + 134217730 }
{
    let mut scratch = [0u8; 1];
    let found = lay_text(table, doc, at, false, &mut scratch, 0);
    let quoted = found.special;
    let a = quote(out, to, quoted);
    let laid = lay_text(table, doc, at, quoted, out, a);
    quote(out, laid.to, quoted)
}
