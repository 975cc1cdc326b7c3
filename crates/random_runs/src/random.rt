//! Numbers by chance, the same for each seed.

ghost use Rattle.std.specs.Prelude.{◌<◌};

/// A linear congruential generator of 31 bits.
#[derive(Drop)]
pub struct Random {
    state: u32,
}

impl Random {
    /// The numbers of a seed.
    pub fn new(seed: u32) -> Random {
        Random { state: seed }
    }

    // The upper 15 of the 31 bits: the lower ones come round soon.
    fn next(&mut self) -> u32 {
        let next = (u64::from(self.state) * 1_103_515_245 + 12_345) % 2_147_483_648;
        self.state = next as u32;
        self.state >> 16
    }

    /// A number below this one.
    pub fn below(&mut self, end: usize) -> usize
        requires { 0 < end }
        ensures { result < end }
    {
        self.next() as usize % end
    }
}
