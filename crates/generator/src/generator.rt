//! The generator and its one call.
ghost use Rattle.std.specs.Prelude.{◌≡◌};
ghost use Rattle.generator.specs.Draw.{drawn};

use std::marker::Model;

/// The factor of a draw.
const FACTOR: u64 = 6_364_136_223_846_793_005;

/// What a draw adds.
const SUMMAND: u64 = 1_442_695_040_888_963_407;

/// Where the generator is.
#[derive(Clone, Copy)]
pub struct Generator {
    state: u64,
}

impl Model for Generator {
    ghost use Rattle.std.specs.Prelude.{ℕ};

    ghost Value = { ℕ };

    ghost view = { λ g. g.state };

    ghost inverse = { λ n. record { state = n } };
}

impl Generator {
    /// The generator of a seed.
    pub fn new(seed: u64) -> Generator
        ensures { result ≡ seed }
    {
        Generator { state: seed }
    }

    /// The next value, which is the new state.
    #[inline]
    pub fn draw(&mut self) -> u64
        ensures value { result ≡ drawn self.old }
        ensures next { self.new ≡ drawn self.old }
    {
        self.state = self.state.wrapping_mul(FACTOR).wrapping_add(SUMMAND);
        self.state
    }
}
