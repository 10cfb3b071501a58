//! Random numbers.

/// A source of numbers that depend on its seed alone: three shifts, each added bit by bit.
#[derive(Drop)]
pub(crate) struct Random {
    state: u64,
}

impl Random {
    ghost use Rattle.std.specs.Prelude.{◌≤◌};

    /// Returns the source of a seed.
    pub(crate) fn new(seed: u64) -> Random {
        Random {
            state: seed ^ 0x9e37_79b9_7f4a_7c15,
        }
    }

    /// A number below the limit, or 0 if that is 0.
    pub(crate) fn below(&mut self, limit: usize) -> usize
        ensures { result ≤ limit }
    {
        let mut state = self.state;
        state ^= state << 13;
        state ^= state >> 7;
        state ^= state << 17;
        self.state = state;
        if limit == 0 {
            return 0;
        }
        state as usize % limit
    }
}
