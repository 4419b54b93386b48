//! Numbers at random, the same in each run.

ghost use Rattle.std.specs.Prelude.{◌<◌};

/// A generator with 32 bits of state (G. Marsaglia, "Xorshift RNGs", 2003).
#[derive(Clone, Copy)]
pub struct Random {
    state: u32,
}

impl Random {
    /// The generator of a seed.
    pub fn new(seed: u32) -> Self {
        Random {
            state: seed.wrapping_mul(0x9e37_79b9) | 1,
        }
    }

    /// A word.
    pub fn word(&mut self) -> u32 {
        let mut word = self.state;
        word ^= word << 13;
        word ^= word >> 17;
        word ^= word << 5;
        self.state = word;
        word
    }

    /// A number below a limit.
    pub fn below(&mut self, limit: u32) -> u32
        requires { 0 < limit }
        ensures { result < limit }
    {
        (self.word() >> 8) % limit
    }

    /// True once in n times.
    pub fn once_in(&mut self, times: u32) -> bool
        requires { 0 < times }
    {
        self.below(times) == 0
    }
}
