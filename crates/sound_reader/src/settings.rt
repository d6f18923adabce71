//! How a sound is read. Read next: `waiting`.
ghost use Rattle.std.specs.Prelude.{IsTrue, ◌↔◌};
ghost use Rattle.pcm_front.specs.Pace.{IsPace};
ghost use Rattle.pcm_front.specs.State.{IsThreshold};
ghost use Rattle.sound_reader.specs.Settings.{AreInRange};

use biphase::Profile;
use limits::MAX_INTERVAL;
use pcm_front::{MAX_SMOOTH, MAX_THRESHOLD, Pace, Threshold};
use tc_address::System;

/// How a sound is read.
#[derive(Clone, Copy)]
pub struct SoundSettings {
    /// How many frames a second the code has.
    pub system: System,
    /// How much the cells may differ.
    pub profile: Profile,
    /// What the sound crosses, in the unit of the sums.
    pub threshold: Threshold,
    /// Ticks of a sample, from 1 to 64.
    pub fineness: u32,
    /// Samples in a sum, from 1 to `MAX_SMOOTH`.
    pub smooth: u32,
    /// When the intervals of a distance are read.
    pub pace: Pace,
}

impl SoundSettings {
    /// Whether each of them is in its range.
    pub fn are_in_range(&self) -> bool
        ensures { IsTrue result ↔ AreInRange self.now }
    {
        is_threshold(self.threshold)
            && self.fineness >= 1
            && self.fineness <= 64
            && self.smooth >= 1
            && self.smooth <= MAX_SMOOTH
            && is_pace(self.pace)
    }
}

pub(crate) fn is_threshold(threshold: Threshold) -> bool
    ensures { IsTrue result ↔ IsThreshold threshold }
{
    match threshold {
        Threshold::Fixed(least) | Threshold::Follow(least) | Threshold::Deep(least) => least >= 1
            && least <= MAX_THRESHOLD,
    }
}

pub(crate) fn is_pace(pace: Pace) -> bool
    ensures { IsTrue result ↔ IsPace pace }
{
    match pace {
        Pace::Ended => true,
        Pace::Passing(length) => length >= 1 && length <= MAX_INTERVAL,
    }
}
