//! Numbers that are drawn, by multiplication and addition modulo 2^64.

#[derive(Debug, Drop)]
pub struct Draws {
    state: u64,
}

impl Draws {
    /// Draws that begin with a seed: the same seed, the same draws.
    pub fn new(seed: u64) -> Draws {
        Draws { state: seed }
    }

    /// A number below a limit; 0 if nothing is below it.
    pub fn below(&mut self, limit: u64) -> u64 {
        self.state = self
            .state
            .wrapping_mul(6364136223846793005)
            .wrapping_add(1442695040888963407);
        (self.state >> 20).checked_rem(limit).unwrap_or(0)
    }

    /// True once in so many draws.
    pub fn one_in(&mut self, many: u64) -> bool {
        self.below(many) == 0
    }

    /// A small number below a limit.
    pub fn small(&mut self, limit: u16) -> u16 {
        u16::try_from(self.below(u64::from(limit))).unwrap_or(0)
    }

    /// The number of a request below a limit.
    pub fn seq(&mut self, limit: u32) -> u32 {
        u32::try_from(self.below(u64::from(limit))).unwrap_or(0)
    }
}
