//! Numbers that are drawn: a linear congruential generator over 64 bits, of which the upper 31 are taken.

ghost use Rattle.std.specs.Prelude.{◌≡◌, ◌<◌, ◌^◌};
ghost use Rattle.load_plan.specs.Draws.{drawn, next};

/// Draws numbers, one after the other.
#[derive(Drop)]
pub(crate) struct Draws {
    state: u64,
}

impl Draws {
    /// The draws from a seed.
    pub(crate) fn new(seed: u64) -> Draws
        ensures { result.state ≡ seed }
    {
        Draws { state: seed }
    }

    /// The next number.
    pub(crate) fn draw(&mut self) -> u64
        ensures drawn { result ≡ drawn self.old.state }
        ensures next { self.new.state ≡ next self.old.state }
        ensures small { result < 2 ^ 31 }
    {
        self.state = next(self.state);
        self.state >> 33
    }
}

// The state after a draw.
fn next(state: u64) -> u64
    ensures { result ≡ next state }
{
    state
        .wrapping_mul(6_364_136_223_846_793_005)
        .wrapping_add(1_442_695_040_888_963_407)
}
