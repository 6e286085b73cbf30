// The answer on a document alone: too long; declared in another encoding; not all characters; else item by item, the first at fault
// decides. The declaration is read before the characters are checked, on any bytes. The three bytes EF BB BF are skipped at the front, and
// counted in every place.
ghost use Rattle.std.specs.Prelude.{◌≡◌};
ghost use Rattle.document.specs.Judge.{start_of, scanned, judge_of};

use crate::place::{end_of, keep, place};
use crate::{DocumentError, ItemError, Open, Placement};
use chars::text::stands;
use chars::whole::check;
use instructions::declaration::names_other;
use items::told::item;
use points::class::Classes;

// The place of the first item.
pub fn start_of(doc: &[u8]) -> usize
    ensures { result ≡ start_of doc.now }
{
    if stands(doc, 0, b"\xEF\xBB\xBF") {
        return 3;
    }
    0
}

// Item by item.
fn scan(table: &Classes, doc: &[u8]) -> Result<(), DocumentError>
    ensures { result ≡ scanned doc.now }
{
    let mut starts = [0usize; Open::LEVELS];
    let mut lens = [0usize; Open::LEVELS];
    let mut opened = Open::none();
    let mut at = start_of(doc);
    let mut first = true;
    // Each turn goes on where the item ended, so the place is no count.
    loop {
        let next = item(table, doc, at, first);
        match place(doc, &starts, &lens, opened, at, next) {
            Placement::Fine => {
                keep(&mut starts, &mut lens, opened, at, next);
                at = end_of(at, next);
                opened = opened.after(next);
                first = false;
            }
            Placement::Fault(why) => {
                return Err(DocumentError::from(ItemError { why, at }));
            }
            Placement::Over => {
                return Ok(());
            }
        }
    }
}

// Any document.
pub fn judge(doc: &[u8]) -> Result<(), DocumentError>
    ensures { result ≡ judge_of doc.now }
{
    if doc.len() > Open::BYTES {
        return Err(DocumentError::TooLong);
    }
    let start = start_of(doc);
    if names_other(doc, start) {
        return Err(DocumentError::OtherEncoding(start));
    }
    match check(doc) {
        Ok(()) => {
            let lent = Classes::new();
            scan(&lent, doc)
        }
        Err(e) => Err(DocumentError::NotChar(e.valid_up_to)),
    }
}
