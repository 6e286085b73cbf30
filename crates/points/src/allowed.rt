// The characters that XML allows: production [2]. Whether a document's bytes are such characters is asked in the crate chars, which goes by
// this function where a byte is not ASCII.
ghost use Rattle.std.specs.Prelude.{◌≡◌};
ghost use Rattle.xml.specs.Productions.{is_char as is_char_of};

// Whether a code point is a Char.
pub fn is_char(c: u32) -> bool
    ensures { result ≡ is_char_of c }
{
    if c < 0x20 {
        return (c == 0x9) | (c == 0xA) | (c == 0xD);
    }
    if c < 0xD800 {
        return true;
    }
    if c < 0xE000 {
        return false;
    }
    if c < 0xFFFE {
        return true;
    }
    if c < 0x10000 {
        return false;
    }
    c < 0x110000
}
