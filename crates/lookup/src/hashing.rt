// The number of a name, by which its chain is found: names that are the same have the same number, and few others have it.
// It goes by all bytes of the name.
ghost use Rattle.std.specs.Prelude.{◌≡◌, ◌<◌};
ghost use Rattle.lookup.specs.Names.{hash_of};

use crate::HEADS;

// The number of a name: below 256.
#[tactic(auto, using(crate::proofs::Search::hashes))]
pub fn hash(name: &[u8]) -> usize
    ensures { (result ≡ hash_of name.now) × (result < 256) }
{
    let mut h: usize = 0;
    for b in name {
        h = (h * 31 + usize::from(*b)) % HEADS;
    }
    h
}
