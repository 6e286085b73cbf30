// What a program takes in: bytes of its standard input or of a file, as many as a buffer holds.
#![tactic(auto)]

ghost use Rattle.std.specs.Prelude.{◌≤◌, ◌<◌, OnOk, length, take};
ghost use Rattle.std.specs.Io.KnownBytes.{Consumes, IsAtEnd};

use std::io;
use std::io::Read;

// Reads until the buffer is full, the input ends or a read fails. Gives how many bytes of the input stand at the buffer's front, and the
// error, if one ended it.
pub fn read_full<R: Read>(reader: &mut R, buf: &mut [u8]) -> (usize, io::Result<()>)
    ensures count { result.0 ≤ length buf.new }
    ensures bytes { Consumes (R.remaining reader.old) (R.remaining reader.new) (take result.0 buf.new) }
    ensures end { OnOk result.1 (result.0 < length buf.new → IsAtEnd (R.remaining reader.new)) }
{
    let mut done = 0;

    // A read gives any number of bytes, so the place is no count.
    while done < buf.len() {
        match reader.read(&mut buf[done..]) {
            Ok(0) => break,
            Ok(n) => done += n,
            Err(e) => return (done, Err(e)),
        }
    }
    (done, Ok(()))
}
