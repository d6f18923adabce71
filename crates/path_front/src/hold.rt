//! Holding the flat tops of spiky sound. Read next: `step_grid/src/grid.rt`.
ghost use Rattle.std.specs.Prelude.{◌≡◌, ℕ, ◌+◌, ◌^◌, ◌<◌, ◌≤◌, ℤ, unsigned_abs, Option, List, [], ◌∷◌};
ghost use Rattle.path_front.specs.Hold.{held_at, held_to, loudness_after, quiet, side_by, threshold_by};
ghost use Rattle.path_front.specs.Hold.{HoldStandsFor, IsLoudness};

use std::marker::Model;

/// The side on which the sound is.
#[derive(Clone, Copy)]
pub enum Side {
    High,
    Low,
}

/// How loud the sound is: its peak, and the sum of some thousand sizes.
#[derive(Clone, Copy)]
pub struct Loudness {
    /// The size of the greatest samples. It rises fast and falls slowly.
    pub peak: u32,
    /// The sum of the last sizes, a 1024th of which is their mean.
    pub sum: u32,
}

impl Loudness {
    /// No sound yet.
    fn quiet() -> Loudness
        ensures value { result ≡ quiet }
        ensures range { IsLoudness result }
    {
        Loudness { peak: 0, sum: 0 }
    }

    /// After one more sample.
    fn after(self, sample: i32) -> Loudness
        requires range { IsLoudness self }
        requires sample { unsigned_abs sample ≤ 2 ^ 15 }
        ensures value { result ≡ loudness_after self sample }
        ensures range { IsLoudness result }
    {
        let size = sample.unsigned_abs();
        let rise = size.saturating_sub(self.peak).div_ceil(4);
        let fall = self.peak.div_ceil(1_024);
        let peak = if self.peak < size {
            self.peak + rise
        } else {
            self.peak - fall
        };
        Loudness {
            peak,
            sum: self.sum - self.sum / 1_024 + size,
        }
    }

    /// The threshold of the side.
    fn threshold(self, least: u32) -> u32
        requires range { IsLoudness self }
        requires least { least ≤ 2 ^ 15 }
        ensures value { result ≡ threshold_by least self }
        ensures most { result ≤ 2 ^ 15 }
    {
        let height = 3 * self.peak.saturating_sub(self.sum / 1_024) / 8;
        height.max(least)
    }
}

/// The side on which the sound is after a sample.
fn side_by(threshold: u32, before: Option<Side>, sample: i32) -> Option<Side>
    requires threshold { threshold ≤ 2 ^ 15 }
    ensures { result ≡ side_by threshold before sample }
{
    if threshold as i32 <= sample {
        Some(Side::High)
    } else if sample <= -(threshold as i32) {
        Some(Side::Low)
    } else {
        before
    }
}

/// A sample, and as far on the side.
fn held_to(side: Option<Side>, by: u32, sample: i32) -> i32
    requires by { by ≤ 2 ^ 14 }
    requires sample { unsigned_abs sample ≤ 2 ^ 15 }
    ensures value { result ≡ held_to side by sample }
    ensures size { unsigned_abs result ≤ 2 ^ 15 + 2 ^ 14 }
{
    let high = sample + by as i32;
    let low = sample - by as i32;
    match side {
        Some(Side::High) => high,
        Some(Side::Low) => low,
        None => sample,
    }
}

/// On which side the sound is, and how loud.
#[derive(Drop)]
pub(crate) struct Hold {
    least: u32,
    loudness: Loudness,
    side: Option<Side>,
}

impl Model for Hold {
    ghost use Rattle.std.specs.Prelude.{◌^◌, ◌≤◌};
    ghost use Rattle.path_front.specs.Hold.{HoldState, IsLoudness};

    ghost Value = { HoldState };

    ghost view = { λ s. record { least = s.least; loudness = s.loudness; side = s.side } };

    ghost invariant = { λ s. (s.least ≤ 2 ^ 15) × IsLoudness s.loudness };
}

impl Hold {
    /// Before the first sample. The threshold of the side is never below the least.
    pub(crate) fn new(least: u32) -> Hold
        requires least { least ≤ 2 ^ 15 }
        ensures stands { HoldStandsFor result [] }
        ensures least { result.least ≡ least }
    {
        Hold {
            least,
            loudness: Loudness::quiet(),
            side: None,
        }
    }

    /// How high the peak is.
    pub(crate) fn peak(&self) -> u32
        ensures value { result ≡ self.now.loudness.peak }
        ensures most { result ≤ 2 ^ 15 }
    {
        self.loudness.peak
    }

    /// Takes the next sample, and holds it: half of the mean size comes to it, on the side of the sound.
    pub(crate) fn hold(&mut self, sample: i32) -> i32
        requires sample { unsigned_abs sample ≤ 2 ^ 15 }
        ensures least { self.new.least ≡ self.old.least }
        ensures stands { (samples : List ℤ) → HoldStandsFor self.old samples
            → HoldStandsFor self.new (sample ∷ samples) }
        ensures value { (samples : List ℤ) → HoldStandsFor self.old samples
            → result ≡ held_at self.old.least (sample ∷ samples) }
        ensures size { unsigned_abs result ≤ 2 ^ 15 + 2 ^ 14 }
    {
        self.loudness = self.loudness.after(sample);
        let threshold = self.loudness.threshold(self.least);
        self.side = side_by(threshold, self.side, sample);
        held_to(self.side, self.loudness.sum / 1_024 / 2, sample)
    }
}
