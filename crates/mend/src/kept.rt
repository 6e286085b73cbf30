// Item by item up to the first fault, or to a text that touches the end with an element open. What stands before it is kept,
// and laid with the end tags that are missing.
ghost use Rattle.std.specs.Prelude.{◌≡◌, ◌≤◌, length};
ghost use Rattle.document.specs.Judge.{scanned, second_of};
ghost use Rattle.mend.specs.Kept.{kept_of, stays as stays_of};
ghost use Rattle.mend.specs.Levels.{halved_by};
ghost use Rattle.mend.specs.Mended.{mended_by};
ghost use Rattle.mend.specs.Answer.{answer_by, after};

use crate::laid::laid;
use crate::{MendError, Mended};
use document::judge::start_of;
use document::place::{end_of, keep, place};
use document::{Open, Placement};
use items::told::item;
use points::class::Classes;
use tags::Item;

// Perhaps half a name: a text that touches the end of n bytes, with an element open.
fn halved(n: usize, item: Item, level: usize) -> bool
    ensures { result ≡ halved_by n item level }
{
    if let Item::Text(e) = item {
        return (level > 0) & (n <= e);
    }
    false
}

// Whether an item is kept, by its place.
fn stays(placement: Placement, half: bool) -> bool
    ensures { result ≡ stays_of placement half }
{
    match placement {
        Placement::Fine => !half,
        Placement::Fault(_) => false,
        Placement::Over => false,
    }
}

// A document of characters.
pub fn mended(doc: &[u8], out: &mut [u8]) -> Result<Mended, MendError>
    requires { length doc.now ≤ 16777216 }
    ensures value { result ≡ answer_by doc.now (kept_of doc.now) (second_of (scanned doc.now))
        (length out.old) }
    ensures out_after { out.new ≡ after result (mended_by doc.now (kept_of doc.now)) out.old }
{
    let table = Classes::new();
    let mut starts = [0usize; Open::LEVELS];
    let mut lens = [0usize; Open::LEVELS];
    let mut opened = Open::none();
    let mut at = start_of(doc);
    let mut first = true;

    // Each turn goes on where the item ended, so the place is no count.
    loop {
        let next = item(&table, doc, at, first);
        let placement = place(doc, &starts, &lens, opened, at, next);
        let half = halved(doc.len(), next, opened.level.0);
        if !stays(placement, half) {
            return laid(doc, &starts, &lens, opened, at, out);
        }
        keep(&mut starts, &mut lens, opened, at, next);
        at = end_of(at, next);
        opened = opened.after(next);
        first = false;
    }
}
