// What is answered to one client: by its list, by the document, and by what the pass over the items came to for it.
ghost use Rattle.std.specs.Prelude.{◌≡◌, true, ◌≤◌, length};
ghost use Rattle.cutter.specs.Answer.{by_list};
ghost use Rattle.four.specs.Parts.{Headed, soundness, Inside, ServedBy, ServedOf};

use chars::whole::check;
use cutter::answer::Cut;
use document::judge::start_of;
use document::{DocumentError, ItemError, Open};
use instructions::declaration::names_other;
use notes::replay::replay;
use passes::Measured;
use paths::ListError;
use refusals::{CutError, fault_of};

// What is answered to a client, and whether its cut is still to be laid.
#[derive(Drop)]
pub struct Served {
    pub answer: Result<Cut, CutError>,
    pub left: bool,
}

// What is known of a document before its items are read: its length, the encoding that it declares, and its characters.
pub fn head_of(doc: &[u8]) -> Result<(), DocumentError>
    ensures { Headed doc.now result }
{
    if doc.len() > Open::BYTES {
        return Err(DocumentError::TooLong);
    }
    let start = start_of(doc);
    if names_other(doc, start) {
        return Err(DocumentError::OtherEncoding(start));
    }
    match check(doc) {
        Ok(()) => Ok(()),
        Err(e) => Err(DocumentError::NotChar(e.valid_up_to)),
    }
}

// Whether a list is sound.
pub fn sound(a: Result<(), ListError>) -> bool
    ensures { result ≡ soundness a }
{
    match a {
        Ok(()) => true,
        Err(_) => false,
    }
}

// A list at fault decides; a sound one leaves it to what is answered else.
pub fn by_list(a: Result<(), ListError>, other: Result<Cut, CutError>) -> Result<Cut, CutError>
    ensures { result ≡ by_list a other }
{
    match a {
        Ok(()) => other,
        Err(e) => Err(CutError::List(e)),
    }
}

// By a sound list: what the pass that measured says. The cut is laid from the notes where there is room and none was left out.
fn by_pass(m: Result<Measured, ItemError>, doc: &[u8], out: &mut [u8], log: &[u64]) -> Served
    requires { (length doc.now ≤ 16777216) × (length log.now ≤ 16777216) × Inside doc.now log.now m }
    ensures { ServedBy doc.now out.old log.now m result out.new }
{
    match m {
        Err(fault) => Served {
            answer: Err(fault_of(fault.why, fault.at)),
            left: false,
        },
        Ok(measured) => {
            let length = measured.length;
            if out.len() < length {
                return Served {
                    answer: Err(CutError::Short(length)),
                    left: false,
                };
            }
            let noted = measured.noted;
            let cut = Cut {
                length,
                selected: measured.selected,
                tests: measured.tests,
            };
            if noted <= log.len() {
                replay(doc, log, noted, out);
                return Served {
                    answer: Ok(cut),
                    left: false,
                };
            }
            Served {
                answer: Ok(cut),
                left: true,
            }
        }
    }
}

// By any list.
pub fn serve(
    a: Result<(), ListError>,
    m: Result<Measured, ItemError>,
    doc: &[u8],
    out: &mut [u8],
    log: &[u64],
) -> Served
    requires { (length doc.now ≤ 16777216) × (length log.now ≤ 16777216) × (soundness a ≡ true → Inside doc.now log.now m) }
    ensures { ServedOf doc.now out.old log.now a m result out.new }
{
    match a {
        Ok(()) => by_pass(m, doc, out, log),
        Err(e) => Served {
            answer: Err(CutError::List(e)),
            left: false,
        },
    }
}
