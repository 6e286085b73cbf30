// Numbers drawn from a seed, and sums of numbers.
// Both stay below 2^32 and go by `*`, `+`, `/` and `%` alone, so that they are the same in any language.

// What draws numbers: each state of the seed comes from the one before.
#[derive(Drop)]
pub struct Draws {
    seed: usize,
}

impl Draws {
    pub fn new(seed: usize) -> Self {
        Draws { seed }
    }

    // A number below n, and 0 where n is 0; the seed moves on.
    pub fn below(&mut self, n: usize) -> usize {
        self.seed = (self.seed % 0x100000000 * 1664525 + 1013904223) % 0x100000000;
        if n == 0 { 0 } else { self.seed / 65536 % n }
    }

    // A number and one more, drawn below n.
    pub fn at_least(&mut self, least: usize, n: usize) -> usize {
        least.wrapping_add(self.below(n))
    }
}

// 31 times the sum and x, modulo 2^32.
pub fn fold(sum: usize, x: usize) -> usize {
    (sum % 0x100000000 * 31 + x % 65536) % 0x100000000
}
