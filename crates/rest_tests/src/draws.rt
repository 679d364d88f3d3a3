// Numbers that look drawn at random, and are the same each time.
ghost use Rattle.std.specs.Prelude.{◌<◌};

// Numbers, each from the one before (a linear congruential generator).
#[derive(Drop)]
pub(crate) struct Draws {
    last: u64,
}

impl Draws {
    pub(crate) fn new() -> Draws {
        Draws { last: 1 }
    }

    // A number below the bound.
    pub(crate) fn below(&mut self, bound: usize) -> usize
        requires { 0 < bound }
        ensures { result < bound }
    {
        self.last = self
            .last
            .wrapping_mul(6_364_136_223_846_793_005)
            .wrapping_add(1_442_695_040_888_963_407);
        (self.last >> 33) as usize % bound
    }

    // Whether something happens that happens so many times in ten.
    pub(crate) fn happens(&mut self, times: usize) -> bool {
        self.below(10) < times
    }
}
