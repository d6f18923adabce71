//! What the word of `ltc-pcm` says: how loud the sound is.
ghost use Rattle.std.specs.Prelude.{◌≡◌, ◌≤◌};
ghost use Rattle.tc_job.specs.SoundLevel.{IsLevel};

use std::marker::Model;

/// The level of each sample of a sound, from 1 to `MAX_LEVEL`.
#[derive(Clone, Copy)]
pub struct SoundLevel {
    level: u16,
}

impl Model for SoundLevel {
    ghost use Rattle.std.specs.Prelude.{ℕ};
    ghost use Rattle.tc_job.specs.SoundLevel.{IsLevel};

    ghost Value = { ℕ };

    ghost view = { λ s. s.level };

    ghost invariant = { λ s. IsLevel s.level };

    ghost inverse = { λ s. record { level = s } };
}

impl SoundLevel {
    /// Samples of this level.
    pub fn new(level: u16) -> SoundLevel
        requires { IsLevel level }
        ensures { result ≡ level }
    {
        SoundLevel { level }
    }

    /// The level, from 1 to `MAX_LEVEL`.
    pub fn level(self) -> u16
        ensures value { result ≡ self }
        ensures valid { IsLevel self }
    {
        self.level
    }
}
