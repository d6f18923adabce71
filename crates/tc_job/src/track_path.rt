//! What the words of `wav-ltc .. path` say: a sound file of whose track the best path is written.
ghost use Rattle.std.specs.Prelude.{◌≡◌, ◌≤◌};
ghost use Rattle.tc_job.specs.TrackPath.{least_rate_of, sound_of, track_path_of, IsTrackPath};

use crate::path_grid::{grid_for, step_ticks};
use crate::path_slicing::PathSlicing;
use std::marker::Model;
use tc_address::{System, rate};

/// How many ticks a sample of a sound file has.
const TICKS: u32 = 16;

/// A track of a sound file, and how its best path is written.
#[derive(Clone, Copy)]
pub struct TrackPath {
    system: System,
    track: u32,
    least: u32,
}

impl Model for TrackPath {
    ghost use Rattle.tc_job.specs.TrackPath.{IsTrackPath, SlicesTrackPath, track_path_of};

    ghost Value = { SlicesTrackPath };

    ghost view = { λ s. track_path_of s.system s.track s.least };

    ghost invariant = { λ s. IsTrackPath (track_path_of s.system s.track s.least) };

    ghost inverse = { λ s. record { system = s.system; track = s.track; least = s.least } };
}

impl TrackPath {
    /// Time code of this system, in this track, of this level at least.
    pub fn new(system: System, track: u32, least: u32) -> TrackPath
        requires { IsTrackPath (track_path_of system track least) }
        ensures { result ≡ track_path_of system track least }
    {
        TrackPath {
            system,
            track,
            least,
        }
    }

    /// The track, from 1 to `MAX_TRACKS` of `limits`.
    pub fn track(&self) -> u32
        ensures value { result ≡ self.now.track }
        ensures valid { IsTrackPath self.now }
    {
        self.track
    }

    /// The least rate of a file in which a path can be looked for, in samples a second.
    pub fn least_rate(&self) -> u32
        ensures { result ≡ least_rate_of self.now.system }
    {
        140 * rate(self.system)
    }

    /// The sound of a track of this rate in samples a second. There is none if the rate is below the least
    /// one, and some if it is not.
    pub fn sound(&self, rate: u32) -> Option<PathSlicing>
        requires least { 1 ≤ rate }
        requires most { rate ≤ 6_250_000 }
        ensures { result ≡ sound_of self.now rate }
    {
        let grid = grid_for(self.system, rate)?;
        let ticks = step_ticks(TICKS, grid)?;
        Some(PathSlicing::new(self.system, rate, self.least, TICKS, grid, ticks))
    }
}
