// Names by number: short ones, an accented letter in two spellings, the letter by itself; then pairs of letters, up to number 399.
// Whichever are not in a round's list are names that no step has.
ghost use Rattle.std.specs.Prelude.{◌≤◌, ◌<◌};
ghost use Rattle.arrayvec.specs.ArrayString.{array_string_len};

use arrayvec::ArrayString;
use std::fmt;

// Name k.
#[derive(Clone, Copy)]
pub struct Name(pub usize);

// Letter k of a pair.
fn letter(k: usize) -> char
    ensures { result < 128 }
{
    char::from(b'c' + (k % 20) as u8)
}

impl Name {
    // The name as it stands in a list.
    pub fn text(self) -> ArrayString<4>
        ensures { (1 ≤ array_string_len result) × (array_string_len result ≤ 4) }
    {
        let mut text = ArrayString::new();
        match self.0 {
            0 => text.push_str("a"),
            1 => text.push_str("\u{E9}"),
            2 => text.push_str("e\u{301}"),
            3 => text.push_str("ab"),
            4 => text.push_str("b"),
            5 => text.push_str("e"),
            k => {
                text.push(letter(k / 20));
                text.push(letter(k));
            }
        }
        text
    }
}

impl fmt::Display for Name {
    fn fmt<W: fmt::Write>(&self, f: &mut fmt::Formatter<W>) -> fmt::Result {
        f.write_str(self.text().as_str())
    }
}
