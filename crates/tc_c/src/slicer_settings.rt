//! How a sound is sliced, in numbers. Read next: `slicer_kept`.
ghost use Rattle.std.specs.Prelude.{◌≡◌, Some, IfSome};
ghost use Rattle.pcm_front.specs.declared.start.Start.{Start};
ghost use Rattle.sound_reader.specs.declared.slicer_settings.SlicerSettings.{SlicerSettings};
ghost use Rattle.sound_reader.specs.Slicer.{CanSlice};
ghost use Rattle.tc_c.specs.CSettings.{start_number, MeansSlicer};

use crate::settings::{pace_of, threshold_of};
use pcm_front::Start;
use sound_reader::SlicerSettings;

/// How a sound is sliced, in numbers. Others than these mean nothing.
#[repr(C)]
#[derive(Clone, Copy)]
pub struct TcSlicerSettings {
    /// Whether the threshold follows the level: 0 not, 1 at a half of it, 2 at a quarter.
    pub follows: u32,
    /// The threshold, or the least, from 1 to 524,272.
    pub threshold: u32,
    /// Ticks of a sample, from 1 to 64.
    pub fineness: u32,
    /// Samples in a sum, from 1 to 16.
    pub smooth: u32,
    /// 0 where an interval is given when it has ended, or else the ticks of the pieces in which it is given as
    /// it passes, up to 16,777,215.
    pub pace: u32,
    /// Where the first interval begins: 0 at the first sample, 1 at the first crossing.
    pub start: u32,
}

impl TcSlicerSettings {
    /// What they mean, where they mean settings in range.
    pub(crate) fn meaning(&self) -> Option<SlicerSettings>
        ensures range { IfSome result CanSlice }
        ensures means { IfSome result (MeansSlicer self.now) }
        ensures only { (s : SlicerSettings) → CanSlice s → MeansSlicer self.now s → result ≡ Some s }
    {
        let settings = SlicerSettings {
            threshold: threshold_of(self.follows, self.threshold)?,
            fineness: self.fineness,
            smooth: self.smooth,
            pace: pace_of(self.pace),
            start: start_of(self.start)?,
        };
        if settings.are_in_range() {
            Some(settings)
        } else {
            None
        }
    }
}

fn start_of(number: u32) -> Option<Start>
    ensures means { IfSome result (λ s. start_number s ≡ number) }
    ensures only { (s : Start) → start_number s ≡ number → result ≡ Some s }
{
    match number {
        0 => Some(Start::Tick),
        1 => Some(Start::Crossing),
        _ => None,
    }
}
