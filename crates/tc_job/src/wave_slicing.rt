//! What the words of `wav-ltc` say: how a track of a sound file is sliced into intervals.
ghost use Rattle.std.specs.Prelude.{◌≡◌};
ghost use Rattle.pcm_front.specs.Pace.{IsPace};
ghost use Rattle.tc_job.specs.Pace.{pace_of};
ghost use Rattle.tc_job.specs.WaveSlicing.{IsWaveSlicing, wave_slicing_of};

use crate::pace::pace_of;
use pcm_front::{Pace, Threshold};
use std::marker::Model;
use tc_address::System;

/// A track of a sound file, and how it is sliced.
#[derive(Clone, Copy)]
pub struct WaveSlicing {
    system: System,
    track: u32,
    threshold: Threshold,
    smooth: u32,
    live: bool,
}

impl Model for WaveSlicing {
    ghost use Rattle.tc_job.specs.WaveSlicing.{IsWaveSlicing, SlicesWave, wave_slicing_of};

    ghost Value = { SlicesWave };

    ghost view = { λ s. wave_slicing_of s.system s.track s.threshold s.smooth s.live };

    ghost invariant = { λ s. IsWaveSlicing (wave_slicing_of s.system s.track s.threshold s.smooth s.live) };

    ghost inverse = { λ s. record {
      system = s.system;
      track = s.track;
      threshold = s.threshold;
      smooth = s.smooth;
      live = s.live;
    } };
}

impl WaveSlicing {
    /// Time code of this system, in this track, sliced at this threshold of sums, in sums of this many
    /// samples, and written as it passes if it is live.
    pub fn new(
        system: System,
        track: u32,
        threshold: Threshold,
        smooth: u32,
        live: bool,
    ) -> WaveSlicing
        requires { IsWaveSlicing (wave_slicing_of system track threshold smooth live) }
        ensures { result ≡ wave_slicing_of system track threshold smooth live }
    {
        WaveSlicing {
            system,
            track,
            threshold,
            smooth,
            live,
        }
    }

    /// The system of the time code.
    pub fn system(&self) -> System
        ensures { result ≡ self.now.system }
    {
        self.system
    }

    /// The track, from 1 to `MAX_TRACKS` of `limits`.
    pub fn track(&self) -> u32
        ensures value { result ≡ self.now.track }
        ensures valid { IsWaveSlicing self.now }
    {
        self.track
    }

    /// The threshold, of the sums: from 1 to `pcm_front::MAX_THRESHOLD`.
    pub fn threshold(&self) -> Threshold
        ensures value { result ≡ self.now.threshold }
        ensures valid { IsWaveSlicing self.now }
    {
        self.threshold
    }

    /// Samples in a sum, from 1 to `pcm_front::MAX_SMOOTH`.
    pub fn smooth(&self) -> u32
        ensures value { result ≡ self.now.smooth }
        ensures valid { IsWaveSlicing self.now }
    {
        self.smooth
    }

    /// When the intervals of a distance are written, at this tick rate.
    pub fn pace(&self, tick_rate: u32) -> Pace
        ensures value { result ≡ pace_of self.now.live self.now.system tick_rate }
        ensures valid { IsPace result }
    {
        pace_of(self.live, self.system, tick_rate)
    }
}
