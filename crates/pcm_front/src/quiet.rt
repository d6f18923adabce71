//! Samples that lead to no other side, many at once. Read next: `threshold`.
ghost use Rattle.std.specs.Prelude.{◌≡◌, ℕ, Some, ◌+◌, ◌<◌, ◌≤◌, ◌^◌, pos, ◌+ℤ◌, ◌≤ℤ◌, FitsSigned, not, length, map};
ghost use Rattle.std.specs.Prelude.{slice_range};
ghost use Rattle.std.specs.Simd.Lanes.{mask_l};
ghost use Rattle.std.specs.Int.{w16};
ghost use Rattle.std.specs.List.{prefix_len, AllByRecursion};
ghost use Rattle.pcm_front.specs.Quiet.{first_set, lies_in, run_from, IsQuiet};

use crate::samples::Samples;
use crate::side::Side;
use std::simd::prelude::*;

/// How many samples are looked at at once.
const LANES: usize = 32;

/// The samples from the least to the most.
#[derive(Clone, Copy)]
pub(crate) struct Band {
    pub(crate) least: i16,
    pub(crate) most: i16,
}

/// A size of samples that lie below a threshold. Only its greatest is left out, at thresholds above it.
fn inside(threshold: u32) -> i16
    requires { 1 ≤ threshold }
    ensures least { pos 0 ≤ℤ result }
    ensures below { (result +ℤ pos 1) ≤ℤ pos threshold }
{
    if threshold <= 32_767 {
        (threshold - 1) as i16
    } else {
        32_767
    }
}

impl Band {
    /// Samples with which the sound stays on its side, or on none.
    pub(crate) fn of(side: Option<Side>, threshold: u32) -> Band
        requires least { 1 ≤ threshold }
        requires most { threshold ≤ 524_272 }
        ensures { IsQuiet side threshold result }
    {
        let inside = inside(threshold);
        match side {
            Some(side) => Band::on(side, inside),
            None => Band {
                least: -inside,
                most: inside,
            },
        }
    }

    /// The same of a side, at thresholds above so much.
    fn on(side: Side, inside: i16) -> Band
        requires { pos 0 ≤ℤ inside }
        ensures { (threshold : ℕ) → 1 ≤ threshold → (inside +ℤ pos 1) ≤ℤ pos threshold
            → IsQuiet (Some side) threshold result }
    {
        match side {
            Side::High => Band {
                least: -inside,
                most: 32_767,
            },
            Side::Low => Band {
                least: -32_768,
                most: inside,
            },
        }
    }

    /// Whether a sample lies in it.
    fn holds(self, sample: i16) -> bool
        ensures { result ≡ lies_in self sample }
    {
        self.least <= sample && sample <= self.most
    }
}

/// The place of the lowest bit that is set, or else the number of all bits.
fn first_set(bits: u64, count: usize) -> usize
    ensures { result ≡ first_set bits count }
{
    if bits == 0 {
        count
    } else {
        bits.trailing_zeros() as usize
    }
}

/// The `LANES` samples from a place on.
fn lanes_at<S: Samples>(samples: &S, at: usize) -> i16x32
    requires within { at + LANES ≤ length (S.list samples.now) }
    requires room { at + LANES < 2 ^ 64 }
    ensures value { result ≡ slice_range (S.list samples.now) at (at + LANES) }
    ensures long { length result ≡ LANES }
    ensures fits { AllByRecursion (FitsSigned w16) result }
{
    let mut lanes = [0; LANES];
    'lanes: for lane in 0..LANES {
        lanes[lane] = samples.at(at + lane);
    }
    i16x32::from_array(lanes)
}

/// A bit for each sample, which is set if it is outside a band.
fn outside(band: Band, lanes: i16x32) -> u64
    requires long { length lanes ≡ LANES }
    requires fits { AllByRecursion (FitsSigned w16) lanes }
    ensures { result ≡ mask_l (map (λ sample. not (lies_in band sample)) lanes) }
{
    let is_below = lanes.simd_lt(i16x32::splat(band.least));
    let is_above = lanes.simd_gt(i16x32::splat(band.most));
    (is_below | is_above).to_bitmask()
}

/// How many of the `LANES` samples from a place on are in a band, before the first one that is not.
fn run_in<S: Samples>(samples: &S, at: usize, band: Band) -> usize
    requires within { at + LANES ≤ length (S.list samples.now) }
    requires room { at + LANES < 2 ^ 64 }
    ensures { result ≡ prefix_len (lies_in band) (slice_range (S.list samples.now) at (at + LANES)) }
{
    let lanes = lanes_at(samples, at);
    let bits = outside(band, lanes);
    first_set(bits, LANES)
}

/// The place of the first sample, from a place on, that lies outside a band; or the end.
pub(crate) fn end_of_run<S: Samples>(samples: &S, at: usize, band: Band) -> usize
    requires { at ≤ length (S.list samples.now) }
    ensures value { result ≡ at + run_from band (S.list samples.now) at }
    ensures within { result ≤ length (S.list samples.now) }
{
    let count = samples.count();
    let mut end = at;
    'many: while LANES <= count - end {
        let run = run_in(samples, end, band);
        end += run;
        if run < LANES {
            return end;
        }
    }
    'each: while end < count && band.holds(samples.at(end)) {
        end += 1;
    }
    end
}
