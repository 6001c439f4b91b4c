//! Numbers that look random.
ghost use Rattle.std.specs.Prelude.{◌<◌};

/// Numbers that look random and are the same in each run.
#[derive(Drop)]
pub struct Random {
    state: u64,
}

impl Random {
    /// The numbers of a seed.
    pub fn of(seed: u64) -> Random {
        Random { state: seed }
    }

    /// One below `count`, which isn't 0.
    pub fn below(&mut self, count: u32) -> u32
        requires { 0 < count }
        ensures { result < count }
    {
        self.state = self
            .state
            .wrapping_mul(6_364_136_223_846_793_005)
            .wrapping_add(1_442_695_040_888_963_407);
        ((self.state >> 33) % (count as u64)) as u32
    }
}
