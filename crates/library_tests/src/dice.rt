//! Numbers that look random, the same for the same seed (the multiplier and the addend of Knuth's MMIX).

/// Numbers that a seed gives.
#[derive(Clone, Copy)]
pub struct Dice {
    pub state: u64,
}

impl Dice {
    /// The next number below so many.
    pub fn roll(&mut self, sides: usize) -> usize {
        self.state = self
            .state
            .wrapping_mul(6_364_136_223_846_793_005)
            .wrapping_add(1_442_695_040_888_963_407);
        let number = (self.state >> 33) as usize;
        if sides == 0 { 0 } else { number % sides }
    }

    /// The same, as a number of 32 bits.
    pub fn number(&mut self, sides: usize) -> u32 {
        u32::try_from(self.roll(sides)).unwrap_or(0)
    }
}
