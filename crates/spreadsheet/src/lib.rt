// Rows for a spreadsheet, for callers in Rust and C: three numbers, and the table in the buffer. C is given the function of the crate
// `spreadsheet_c`, which calls this one.
#![tactic(auto)]

ghost use Rattle.std.specs.Prelude.{◌≡◌, length};
ghost use Rattle.sheet.specs.Answer.{answer_of, bytes_after};
ghost use Rattle.spreadsheet.specs.Numbers.{rows_numbers};

use exported::{Numbers, cut_refusal};
use refusals::CutError;
use sheet::{Table, rows};

// The numbers of an answer: under 0 the length written and the elements selected.
fn rows_numbers(a: Result<Table, CutError>) -> Numbers
    ensures { result ≡ rows_numbers a }
{
    match a {
        Ok(table) => Numbers {
            number: 0,
            second: table.length as u64,
            third: table.selected as u64,
        },
        Err(e) => cut_refusal(e),
    }
}

// Writes the table of a document by a list into a buffer, and gives the numbers of the answer.
#[unsafe(no_mangle)]
pub extern "C" fn choughbell_rows(list: &[u8], doc: &[u8], out: &mut [u8]) -> Numbers
    ensures value { result ≡ rows_numbers (answer_of list.now doc.now (length out.old)) }
    ensures out_after { out.new ≡ bytes_after list.now doc.now out.old }
{
    let a = rows(list, doc, out);
    rows_numbers(a)
}
