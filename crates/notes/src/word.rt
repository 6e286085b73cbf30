// A note as a number: its kind, the place that its bytes are from, and how many they are.
ghost use Rattle.std.specs.Prelude.{◌≡◌, ◌≤◌, ◌<◌};
ghost use Rattle.notes.specs.Notes.{word_of, from_of, size_of};

// The note of a kind, of so many bytes from a place on.
pub fn word_of(kind: usize, from: usize, size: usize) -> u64
    requires { (kind < 4) × (from ≤ 16777216) × (size ≤ 33554432) }
    ensures { result ≡ word_of kind from size }
{
    (from * 134217728 + size * 4 + kind) as u64
}

// The place.
pub fn from_of(word: u64) -> usize
    ensures { result ≡ from_of word }
{
    (word / 134217728 % 33554432) as usize
}

// How many bytes.
pub fn size_of(word: u64) -> usize
    ensures { result ≡ size_of word }
{
    (word / 4 % 33554432) as usize
}
