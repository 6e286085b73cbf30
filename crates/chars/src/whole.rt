// The whole document's characters: blocks that are plain or usual are passed at once. Where a block is neither, and at the end, characters
// are read one by one, up to 64 bytes of them, until the end or the first sequence that is no character.
ghost use Rattle.std.specs.Prelude.{◌≡◌, false, ◌≤◌, ◌<◌, length, drop};
ghost use Rattle.xml.specs.Character.{starts};
ghost use Rattle.xml.specs.Productions.{is_char};
ghost use Rattle.blocks.specs.Block.{Passes};
ghost use Rattle.chars.specs.Check.{check_of};

use blocks::block::{after_block, is_other};
use points::allowed::is_char;
use utf8::sequence_at;

// The first sequence that is no character that XML allows begins at a place; all before it are such characters.
#[derive(Clone, Copy, Debug, PartialEq, Eq)]
pub struct CharError {
    pub valid_up_to: usize,
}

// A place up to which there are characters alone: past all blocks from `from` on that are plain or usual, in turn.
fn after_blocks(s: &[u8], from: usize) -> usize
    requires { from ≤ length s.now }
    ensures { Passes s.now from result }
{
    // Each turn goes on where the block ended, so the place is no count.
    let mut i = from;
    while s.len() - i >= 67 {
        let e = after_block(s, i);
        if e == i {
            return i;
        }
        i = e;
    }
    i
}

// Where the characters from at on end, read one by one: where no character begins, or at the first place from a bound on.
fn after_chars(s: &[u8], at: usize, bound: usize) -> usize
    requires { at ≤ length s.now }
    ensures passes { Passes s.now at result }
    ensures s_value { result < bound → starts is_char (drop result s.now) ≡ false }
{
    // Each turn goes on where the character ended, so the place is no count.
    let mut i = at;
    while i < bound {
        if s.len() <= i {
            return i;
        }
        if is_other(s[i]) {
            match sequence_at(s, i) {
                Some((c, e)) => {
                    if !is_char(c) {
                        return i;
                    }
                    i = e;
                }
                None => {
                    return i;
                }
            }
        } else {
            i += 1;
        }
    }
    i
}

// [2] Char, from the first byte to the last.
pub fn check(s: &[u8]) -> Result<(), CharError>
    ensures { result ≡ check_of s.now }
{
    // Each turn goes on where the characters ended, so the place is no count.
    let mut i: usize = 0;
    loop {
        let k = after_blocks(s, i);
        let bound = k + 64;
        i = after_chars(s, k, bound);
        if s.len() <= i {
            return Ok(());
        }
        if i < bound {
            return Err(CharError { valid_up_to: i });
        }
    }
}
