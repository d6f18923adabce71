//! How a sound is sliced. Read next: `slicer`.
ghost use Rattle.std.specs.Prelude.{IsTrue, ◌↔◌};
ghost use Rattle.sound_reader.specs.Slicer.{CanSlice};

use crate::settings::{is_pace, is_threshold};
use pcm_front::{MAX_SMOOTH, Pace, Start, Threshold};

/// How a sound is sliced.
#[derive(Clone, Copy)]
pub struct SlicerSettings {
    /// What the sound crosses, in the unit of the sums.
    pub threshold: Threshold,
    /// Ticks of a sample, from 1 to 64.
    pub fineness: u32,
    /// Samples in a sum, from 1 to `MAX_SMOOTH`.
    pub smooth: u32,
    /// When the intervals of a distance are given.
    pub pace: Pace,
    /// Where the first interval begins.
    pub start: Start,
}

impl SlicerSettings {
    /// Whether each of them is in its range.
    pub fn are_in_range(&self) -> bool
        ensures { IsTrue result ↔ CanSlice self.now }
    {
        is_threshold(self.threshold)
            && self.fineness >= 1
            && self.fineness <= 64
            && self.smooth >= 1
            && self.smooth <= MAX_SMOOTH
            && is_pace(self.pace)
    }
}
