// Text laid into a buffer as far as the buffer reaches: what is past its end is counted and not written. So the same pass measures a text,
// into a buffer of one byte, and writes it, into one that is long enough.
#![tactic(auto)]

ghost use Rattle.std.specs.Prelude.{[], ◌∷◌, ◌+◌, ◌≤◌, ◌<◌, ◌≡◌, length};
ghost use Rattle.xml.specs.Forest.{start_tag, end_tag};
ghost use Rattle.writer.specs.Wrote.{Wrote};

// Lays one byte at a place, and gives the place after it.
pub fn put(out: &mut [u8], at: usize, b: u8) -> usize
    requires { at + 1 ≤ 18446744073709551615 }
    ensures { Wrote out.old at (b ∷ []) result out.new }
{
    if out.len() <= at {
        return at + 1;
    }
    out[at] = b;
    at + 1
}

// Lays the bytes of s at a place, and gives the place after them.
pub fn copy(out: &mut [u8], at: usize, s: &[u8]) -> usize
    requires { at + length s.now ≤ 18446744073709551615 }
    ensures { Wrote out.old at s.now result out.new }
{
    let room = s.len().min(out.len().saturating_sub(at));
    for (i, b) in s[..room].iter().enumerate() {
        out[at + i] = *b;
    }
    at + s.len()
}

// Lays `<`, a name, `>`.
pub fn start_tag(out: &mut [u8], at: usize, name: &[u8]) -> usize
    requires { at + length name.now + 2 ≤ 18446744073709551615 }
    ensures { Wrote out.old at (start_tag name.now) result out.new }
{
    let a = put(out, at, b'<');
    let e = copy(out, a, name);
    put(out, e, b'>')
}

// Lays `</`, a name, `>`.
pub fn end_tag(out: &mut [u8], at: usize, name: &[u8]) -> usize
    requires { at + length name.now + 3 ≤ 18446744073709551615 }
    ensures { Wrote out.old at (end_tag name.now) result out.new }
{
    let a = put(out, at, b'<');
    let b = put(out, a, b'/');
    let e = copy(out, b, name);
    put(out, e, b'>')
}
