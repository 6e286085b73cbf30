// The packed list: `pack`, from text to the packed form, and `unpack`, back to text. What the packed form is stands in specs/Packed.antt,
// and what is answered in specs/Answer.antt.
//
//     text     judged, measured, laid                          refused: 1 2 3, then 9
//     packed   spelled as text whatever its bytes are; then
//              that text is packed and compared with the input  refused: 13, then 9
//
// So the reader judges no byte by itself: what is no packed form of a sound list can't come out again as it went in.
#![tactic(auto)]

ghost use Rattle.std.specs.Prelude.{◌≡◌, length};
ghost use Rattle.packed.specs.Spelled.{packs};
ghost use Rattle.packed.specs.Answer.{pack_answer, pack_bytes, unpack_answer, unpack_bytes};
ghost use Rattle.packed.specs.declared.PackError.TheVariants.{List as OfList};

use paths::{ListError, PathList};
use writer::copy;

mod lay; // text laid in the packed form
mod spell; // a packed form spelled as text

// Why nothing is written: the text is refused as a list; the input is the packed form of no sound list; the buffer is too short for the
// result, which has this length.
#[derive(Clone, Copy, Debug, PartialEq, Eq)]
pub enum PackError {
    List(ListError),
    NotPacked,
    Short(usize),
}

impl From<ListError> for PackError {
    ghost from_gives = { λ e r. r ≡ OfList e };

    fn from(e: ListError) -> PackError {
        PackError::List(e)
    }
}

// The size of a packed list. No sound list has a longer packed form: one byte more for each step than its text, four for each line, and the
// version.
pub struct PackedList;

impl PackedList {
    pub const BYTES: usize = 8833;
}

// Writes the packed form of a list into a buffer, and gives its length. Only where it is written is a byte of the buffer changed, and then
// none after it.
#[tactic(auto, unfolding(crate::specs::Answer::pack_answer, crate::specs::Answer::pack_bytes))]
pub fn pack(text: &[u8], out: &mut [u8]) -> Result<usize, PackError>
    ensures value { result ≡ pack_answer text.now (length out.old) }
    ensures out_after { out.new ≡ pack_bytes text.now out.old }
{
    paths::answer(text)?;
    let mut scratch = [0u8; 1];
    let n = lay::list(text, &mut scratch);
    if out.len() < n {
        return Err(PackError::Short(n));
    }
    lay::list(text, out);
    Ok(n)
}

// Whether an input is the packed form of a text, which has to be a sound list.
fn is_packed(packed: &[u8], text: &[u8]) -> bool
    ensures { result ≡ packs packed.now text.now }
{
    let mut again = [0u8; PackedList::BYTES];
    match pack(text, &mut again) {
        Ok(n) => &again[0..n] == packed,
        Err(_) => false,
    }
}

// Writes the text of a packed list into a buffer, and gives its length. Only where it is written is a byte of the buffer changed, and then
// none after it.
pub fn unpack(packed: &[u8], out: &mut [u8]) -> Result<usize, PackError>
    ensures value { result ≡ unpack_answer packed.now (length out.old) }
    ensures out_after { out.new ≡ unpack_bytes packed.now out.old }
{
    let mut text = [0u8; PathList::BYTES];
    let n = spell::list(packed, &mut text);
    if n > PathList::BYTES {
        return Err(PackError::NotPacked);
    }
    if !is_packed(packed, &text[0..n]) {
        return Err(PackError::NotPacked);
    }
    if out.len() < n {
        return Err(PackError::Short(n));
    }
    copy(out, 0, &text[0..n]);
    Ok(n)
}
