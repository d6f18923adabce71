//! The threshold that a crossing passes. Read next: `finder`.
ghost use Rattle.std.specs.Prelude.{◌≡◌, ◌≤◌, length, slice_range};
ghost use Rattle.std.specs.List.{fold};
ghost use Rattle.pcm_front.specs.Level.{least_of, next_level, threshold_by, IsInRange, IsSum};
ghost use Rattle.pcm_front.specs.State.{IsThreshold};

use crate::level::Level;
use crate::samples::Samples;

/// The greatest threshold: the sum of sixteen samples that are 32,767.
pub const MAX_THRESHOLD: u32 = 524_272;

/// How far above and below zero the threshold lies, in the unit of the sums: from 1 to
/// `MAX_THRESHOLD`.
#[derive(Clone, Copy)]
pub enum Threshold {
    /// So far at each sample.
    Fixed(u32),
    /// At half of the height of the peak of the sound above its mean size, and never nearer than this.
    Follow(u32),
    /// At a quarter of it, and never nearer than this: for dull sound.
    Deep(u32),
}

impl Threshold {
    /// The threshold is this at least, at each level.
    pub(crate) fn least(self) -> u32
        requires { IsThreshold self }
        ensures value { result ≡ least_of self }
        ensures least { 1 ≤ result }
        ensures most { result ≤ 524_272 }
    {
        match self {
            Threshold::Fixed(least) | Threshold::Follow(least) | Threshold::Deep(least) => least,
        }
    }

    /// The level after one more sum, if the threshold follows it.
    pub(crate) fn next_level(self, level: Level, sum: i32) -> Level
        requires level { IsInRange level }
        requires sum { IsSum sum }
        ensures value { result ≡ next_level self level sum }
        ensures range { IsInRange result }
    {
        match self {
            Threshold::Fixed(_) => level,
            Threshold::Follow(_) | Threshold::Deep(_) => level.after(sum),
        }
    }

    /// The level after the samples in some places, each of which stands for itself.
    pub(crate) fn level_over<S: Samples>(
        self,
        level: Level,
        samples: &S,
        at: usize,
        end: usize,
    ) -> Level
        requires level { IsInRange level }
        requires order { at ≤ end }
        requires within { end ≤ length (S.list samples.now) }
        ensures value { result ≡ fold (next_level self) level (slice_range (S.list samples.now) at end) }
        ensures range { IsInRange result }
    {
        match self {
            Threshold::Fixed(_) => level,
            Threshold::Follow(_) | Threshold::Deep(_) => level.over(samples, at, end),
        }
    }

    /// The threshold at a level.
    pub(crate) fn at(self, level: Level) -> u32
        requires threshold { IsThreshold self }
        requires level { IsInRange level }
        ensures value { result ≡ threshold_by self level }
        ensures least { 1 ≤ result }
        ensures most { result ≤ 524_272 }
    {
        match self {
            Threshold::Fixed(threshold) => threshold,
            Threshold::Follow(least) => {
                let height = level.half_height();
                if height < least { least } else { height }
            }
            Threshold::Deep(least) => {
                let height = level.quarter_height();
                if height < least { least } else { height }
            }
        }
    }
}
