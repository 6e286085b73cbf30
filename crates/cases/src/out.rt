// Bytes as text.
use std::io;
use std::io::Write;

// Each byte of s in two hexadecimal digits.
pub fn bytes<W: Write>(out: &mut W, s: &[u8]) -> io::Result<()> {
    for b in s {
        write!(out, "{b:02x}")?;
    }
    Ok(())
}
