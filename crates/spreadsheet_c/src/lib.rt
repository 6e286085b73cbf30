// The function of the library `spreadsheet` for callers in C, whose header is host/include/choughbell.h: a slice is passed as a pointer and
// then a length. It calls the library's function of its name, and states that function's clauses again.
#![tactic(auto)]

ghost use Rattle.std.specs.Prelude.{◌≡◌, length};
ghost use Rattle.sheet.specs.Answer.{answer_of, bytes_after};
ghost use Rattle.spreadsheet.specs.Numbers.{rows_numbers};

use exported::Numbers;

// Writes the table of a document by a list into a buffer, and gives the numbers of the answer.
#[unsafe(no_mangle)]
pub extern "C" fn choughbell_rows(list: &[u8], doc: &[u8], out: &mut [u8]) -> Numbers
    ensures value { result ≡ rows_numbers (answer_of list.now doc.now (length out.old)) }
    ensures out_after { out.new ≡ bytes_after list.now doc.now out.old }
{
    spreadsheet::choughbell_rows(list, doc, out)
}
