//! The level of the sound. Read next: `sizes`.
ghost use Rattle.std.specs.Prelude.{◌≡◌, ◌+◌, ◌-◌, ◌≤◌, ◌^◌, pos, ◌-ℤ◌, length, slice_range};
ghost use Rattle.std.specs.List.{fold};
ghost use Rattle.pcm_front.specs.Level.{silent, level_after, half_height, peak_after, quarter_height, IsInRange, IsSum};
ghost use Rattle.pcm_front.specs.Sizes.{level_grown, lowered, IsRaised};

use crate::samples::Samples;
use crate::sizes::{RAISE, SIZES, sizes_at};

/// How loud the sound is: its peak, and the sum of some thousand sizes.
#[derive(Clone, Copy)]
pub struct Level {
    /// The size of the greatest samples. It rises fast and falls slowly.
    pub(crate) peak: u32,
    /// The sum of the last sizes, a 1024th of which is their mean.
    pub(crate) sum: u32,
}

/// A level whose peak stands `RAISE` higher, and its sum 1024 times that: a 1024th of each is then what it
/// falls, rounded down, and nothing has to be rounded up at each sample.
#[derive(Clone, Copy)]
pub struct Raised {
    pub(crate) peak: u32,
    pub(crate) sum: u32,
}

impl Level {
    /// No sound yet.
    pub(crate) fn silent() -> Level
        ensures value { result ≡ silent }
        ensures range { IsInRange result }
    {
        Level { peak: 0, sum: 0 }
    }

    /// The level after one more sum.
    #[inline(always)]
    pub(crate) fn after(self, sum: i32) -> Level
        requires level { IsInRange self }
        requires sum { IsSum sum }
        ensures value { result ≡ level_after self sum }
        ensures range { IsInRange result }
    {
        let size = sum.unsigned_abs();
        Level {
            peak: (self.peak as i32 - fall(self.peak + RAISE, size + RAISE)) as u32,
            sum: self.sum - self.sum / 1_024 + size,
        }
    }

    /// It stands higher.
    #[inline(always)]
    fn raised(self) -> Raised
        requires { IsInRange self }
        ensures value { lowered result ≡ self }
        ensures range { IsRaised result }
    {
        Raised {
            peak: self.peak + RAISE,
            sum: self.sum + 1_024 * RAISE,
        }
    }

    /// The level after the samples in some places.
    pub(crate) fn over<S: Samples>(self, samples: &S, at: usize, end: usize) -> Level
        requires level { IsInRange self }
        requires order { at ≤ end }
        requires within { end ≤ length (S.list samples.now) }
        ensures value { result ≡ fold level_after self (slice_range (S.list samples.now) at end) }
        ensures range { IsInRange result }
    {
        let mut level = self.raised();
        let mut place = at;
        'many: while SIZES <= end - place {
            let sizes = sizes_at(samples, place);
            level = level
                .grown(u32::from(sizes[0]))
                .grown(u32::from(sizes[1]))
                .grown(u32::from(sizes[2]))
                .grown(u32::from(sizes[3]));
            place += SIZES;
        }
        'each: while place < end {
            level = level.grown(u32::from(samples.at(place).unsigned_abs()) + RAISE);
            place += 1;
        }
        level.lowered()
    }

    /// Half of the height of the peak above the mean size.
    pub(crate) fn half_height(self) -> u32
        requires { IsInRange self }
        ensures value { result ≡ half_height self }
        ensures most { result ≤ 2 ^ 18 }
    {
        self.peak.saturating_sub(self.sum / 1_024) / 2
    }

    /// A quarter of it.
    pub(crate) fn quarter_height(self) -> u32
        requires { IsInRange self }
        ensures value { result ≡ quarter_height self }
        ensures most { result ≤ 2 ^ 17 }
    {
        self.peak.saturating_sub(self.sum / 1_024) / 4
    }
}

impl Raised {
    /// The level that stands higher.
    #[inline(always)]
    fn lowered(self) -> Level
        requires { IsRaised self }
        ensures value { result ≡ lowered self }
        ensures range { IsInRange result }
    {
        Level {
            peak: self.peak - RAISE,
            sum: self.sum - 1_024 * RAISE,
        }
    }

    /// The level after one more size, which stands as much higher as the peak.
    #[inline(always)]
    fn grown(self, size: u32) -> Raised
        requires level { IsRaised self }
        requires least { RAISE ≤ size }
        requires most { size ≤ 2 ^ 19 + RAISE }
        ensures value { lowered result ≡ level_grown (lowered self) (size - RAISE) }
        ensures range { IsRaised result }
    {
        Raised {
            peak: (self.peak as i32 - fall(self.peak, size)) as u32,
            sum: self.sum - self.sum / 1_024 + size,
        }
    }
}

/// How far the peak falls after a size, by a 1024th of itself, rounded up; or, below zero, how far it
/// rises, by a quarter of what it lacks, rounded up. Both stand `RAISE` higher.
#[inline(always)]
fn fall(peak: u32, size: u32) -> i32
    requires peak_least { RAISE ≤ peak }
    requires peak_most { peak ≤ 2 ^ 19 + RAISE }
    requires size_least { RAISE ≤ size }
    requires size_most { size ≤ 2 ^ 19 + RAISE }
    ensures { pos peak -ℤ result ≡ pos (peak_after (peak - RAISE) (size - RAISE) + RAISE) }
{
    let lack = (peak as i32 - size as i32) >> 2;
    // A choice between two numbers that are at hand takes no branch, which would often be mispredicted.
    if peak < size {
        lack
    } else {
        (peak / 1_024) as i32
    }
}
