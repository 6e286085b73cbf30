// The check of two lists, for callers in Rust and C: document 02's three numbers for each case of its answer.
// The library's own answer is the crate `covers`.
ghost use Rattle.std.specs.Prelude.{◌≡◌};
ghost use Rattle.covers.specs.Answer.{which_number, cover_answer};
ghost use Rattle.exported.specs.Covers.{covers_numbers};

use crate::{Numbers, list_refusal, refusal};
use covers::{CoverError, Which};

// The number of a list: 1 for the narrow one, 2 for the wide one.
fn which_number(which: Which) -> u64
    ensures { result ≡ which_number which }
{
    match which {
        Which::Narrow => 1,
        Which::Wide => 2,
    }
}

// The numbers of an answer on two lists.
fn covers_numbers(a: Result<bool, CoverError>) -> Numbers
    ensures { result ≡ covers_numbers a }
{
    match a {
        Ok(true) => refusal(0, 1),
        Ok(false) => refusal(0, 0),
        Err(refused) => {
            let list = list_refusal(refused.error);
            let third = which_number(refused.which);
            Numbers {
                number: list.number,
                second: list.second,
                third,
            }
        }
    }
}

// Whether every path of a narrow list is covered by a path of a wide list, marked if it is: under 0 the second number is 1 or 0. A list is
// refused by 1 to 3, the narrow one first, and the third number is 1 or 2 for the list.
#[unsafe(no_mangle)]
pub extern "C" fn choughbell_covers(narrow: &[u8], wide: &[u8]) -> Numbers
    ensures { result ≡ covers_numbers (cover_answer narrow.now wide.now) }
{
    let a = covers::covers(narrow, wide);
    covers_numbers(a)
}
