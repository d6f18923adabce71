//! What the words of `pcm-ltc` say: how sound is sliced into intervals.
ghost use Rattle.std.specs.Prelude.{◌≡◌, ◌*◌};
ghost use Rattle.pcm_front.specs.Pace.{IsPace};
ghost use Rattle.tc_job.specs.Pace.{pace_of};
ghost use Rattle.tc_job.specs.Slicing.{IsSlicing, slicing_of};

use crate::pace::pace_of;
use pcm_front::{Pace, Threshold};
use std::marker::Model;
use tc_address::System;

/// The greatest fineness, in ticks a sample.
pub const MAX_FINENESS: u32 = 64;

/// The greatest size of a sample whose opposite is a sample too.
pub const MAX_LEVEL: u32 = 32_767;

/// Sound, and how it is sliced.
#[derive(Clone, Copy)]
pub struct Slicing {
    system: System,
    rate: u32,
    threshold: Threshold,
    fineness: u32,
    smooth: u32,
    live: bool,
}

impl Model for Slicing {
    ghost use Rattle.tc_job.specs.Slicing.{IsSlicing, Slices, slicing_of};

    ghost Value = { Slices };

    ghost view = { λ s. slicing_of s.system s.rate s.threshold s.fineness s.smooth s.live };

    ghost invariant = { λ s. IsSlicing (slicing_of s.system s.rate s.threshold s.fineness s.smooth s.live) };

    ghost inverse = { λ s. record {
      system = s.system;
      rate = s.rate;
      threshold = s.threshold;
      fineness = s.fineness;
      smooth = s.smooth;
      live = s.live;
    } };
}

impl Slicing {
    /// Sound of this system, at this rate in samples a second, sliced at this threshold of sums, with this many
    /// ticks a sample, in sums of this many samples, and written as it passes if it is live.
    pub fn new(
        system: System,
        rate: u32,
        threshold: Threshold,
        fineness: u32,
        smooth: u32,
        live: bool,
    ) -> Slicing
        requires { IsSlicing (slicing_of system rate threshold fineness smooth live) }
        ensures { result ≡ slicing_of system rate threshold fineness smooth live }
    {
        Slicing {
            system,
            rate,
            threshold,
            fineness,
            smooth,
            live,
        }
    }

    /// The system of the time code.
    pub fn system(&self) -> System
        ensures { result ≡ self.now.system }
    {
        self.system
    }

    /// The threshold, of the sums: from 1 to `pcm_front::MAX_THRESHOLD`.
    pub fn threshold(&self) -> Threshold
        ensures value { result ≡ self.now.threshold }
        ensures valid { IsSlicing self.now }
    {
        self.threshold
    }

    /// Ticks a sample, from 1 to `MAX_FINENESS`.
    pub fn fineness(&self) -> u32
        ensures value { result ≡ self.now.fineness }
        ensures valid { IsSlicing self.now }
    {
        self.fineness
    }

    /// Samples in a sum, from 1 to `pcm_front::MAX_SMOOTH`.
    pub fn smooth(&self) -> u32
        ensures value { result ≡ self.now.smooth }
        ensures valid { IsSlicing self.now }
    {
        self.smooth
    }

    /// Ticks a second, from 1 to `MAX_TICK_RATE` of `limits`.
    pub fn tick_rate(&self) -> u32
        ensures value { result ≡ self.now.rate * self.now.fineness }
        ensures valid { IsSlicing self.now }
    {
        self.rate * self.fineness
    }

    /// When the intervals of a distance are written.
    pub fn pace(&self) -> Pace
        ensures value { result ≡ pace_of self.now.live self.now.system (self.now.rate * self.now.fineness) }
        ensures valid { IsPace result }
    {
        pace_of(self.live, self.system, self.tick_rate())
    }
}
