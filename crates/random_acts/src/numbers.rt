ghost use Rattle.std.specs.Prelude.{◌<◌};

/// A linear congruential generator, with the numbers of Knuth's MMIX.
#[derive(Drop)]
pub struct Numbers {
    state: u64,
}

impl Numbers {
    /// Numbers that follow from a seed.
    pub fn new(seed: u64) -> Numbers {
        Numbers { state: seed }
    }

    /// The next number below a limit. The low bits repeat soon, and are not used.
    pub fn below(&mut self, limit: u32) -> u32
        requires { 0 < limit }
        ensures { result < limit }
    {
        self.state = self
            .state
            .wrapping_mul(6_364_136_223_846_793_005)
            .wrapping_add(1_442_695_040_888_963_407);
        (self.state >> 32) as u32 % limit
    }
}
