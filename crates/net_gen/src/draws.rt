// The random numbers of generated networks.
ghost use Rattle.std.specs.Prelude.{◌≡◌, ◌<◌};
ghost use Rattle.net_gen.specs.Draws.{next, drawn};

/// The multiplier of Knuth's MMIX linear congruential generator.
pub const MULTIPLIER: u64 = 6_364_136_223_846_793_005;

/// The increment of that generator.
pub const INCREMENT: u64 = 1_442_695_040_888_963_407;

/// How many low bits of a state a draw leaves out, since they repeat soon.
pub const DROPPED_BITS: u32 = 33;

/// Knuth's MMIX linear congruential generator.
#[derive(Drop)]
pub struct Draws {
    /// The seed, or what the last draw left.
    pub state: u64,
}

impl Draws {
    /// The next draw, which is below that number.
    pub fn draw(&mut self, below: u32) -> u32
        requires { 0 < below }
        ensures drawn { result ≡ drawn below self.old.state }
        ensures state { self.new.state ≡ next self.old.state }
        ensures bounded { result < below }
    {
        self.state = self.state.wrapping_mul(MULTIPLIER).wrapping_add(INCREMENT);
        (self.state >> DROPPED_BITS) as u32 % below
    }
}
