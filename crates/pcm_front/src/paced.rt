//! The intervals of samples, as they are written.
ghost use Rattle.std.specs.Prelude.{◌≡◌, ℕ, ℤ, ◌+◌, ◌-◌, ◌*◌, ◌<◌, ◌≤◌, ◌^◌, List, ◌++◌, length, take, None, IfSome};
ghost use Rattle.pcm_front.specs.Distance.{distances_by};
ghost use Rattle.pcm_front.specs.Pace.{intervals_at, intervals_in, longest, IsPace};
ghost use Rattle.pcm_front.specs.Samples.{samples_of};
ghost use Rattle.pcm_front.specs.StandsFor.{settings_of, tick_of, StandsFor};

use crate::interval::Intervals;
use crate::pace::Pace;
use crate::slicer::Slicer;

impl Slicer {
    /// Takes samples from the front, as `run_samples` does, and gives how many these are, and the
    /// intervals that come to those before.
    #[inline(always)]
    pub fn intervals_of_samples(&mut self, pace: Pace, samples: &[i16]) -> (usize, Intervals)
        requires pace { IsPace pace }
        requires room { tick_of self.old + (settings_of self.old).fineness * length samples.now ≤ 2 ^ 62 }

        ensures within { result.0 ≤ length samples.now }
        ensures some { 1 ≤ length samples.now → 1 ≤ result.0 }
        ensures all { result.1.rest ≡ None → result.0 ≡ length samples.now }
        ensures length { result.1.length ≡ longest pace }
        ensures rest { IfSome result.1.rest (λ rest. (1 ≤ rest) × (rest ≤ longest pace)) }
        ensures tick { tick_of self.new ≡ tick_of self.old + (settings_of self.old).fineness * result.0 }
        ensures settings { settings_of self.new ≡ settings_of self.old }

        // What it means for the samples so far.
        ensures stands { (front : List ℤ) → StandsFor self.old front
            → StandsFor self.new (front ++ take result.0 samples.now) }
        ensures intervals { (front : List ℤ) → StandsFor self.old front
            → intervals_at pace (settings_of self.old) (front ++ take result.0 samples.now)
            ≡ intervals_at pace (settings_of self.old) front ++ intervals_in result.1 }
        ensures last { IfSome result.1.rest (λ rest. (front : List ℤ) → StandsFor self.old front
            → distances_by (settings_of self.old) (front ++ take (result.0 - 1) samples.now)
            ≡ distances_by (settings_of self.old) front) }
    {
        let before = self.passed_at(pace);
        let (count, distance) = self.run_samples(samples);
        (
            count,
            pace.intervals(before, distance, self.passed_at(pace)),
        )
    }

    /// The same of samples as bytes, as `run` takes them.
    #[inline(always)]
    pub fn intervals_of_bytes(&mut self, pace: Pace, bytes: &[u8]) -> (usize, Intervals)
        requires pace { IsPace pace }
        requires room { tick_of self.old + (settings_of self.old).fineness * length bytes.now ≤ 2 ^ 62 }

        ensures within { result.0 ≤ length bytes.now }
        ensures some { 2 ≤ length bytes.now → 1 ≤ result.0 }
        ensures all { result.1.rest ≡ None → length bytes.now < result.0 + 2 }
        ensures whole { (count : ℕ) × (result.0 ≡ 2 * count)
            × (tick_of self.new ≡ tick_of self.old + (settings_of self.old).fineness * count) }
        ensures length { result.1.length ≡ longest pace }
        ensures rest { IfSome result.1.rest (λ rest. (1 ≤ rest) × (rest ≤ longest pace)) }
        ensures settings { settings_of self.new ≡ settings_of self.old }

        // What it means for the samples so far.
        ensures stands { (front : List ℤ) → StandsFor self.old front
            → StandsFor self.new (front ++ samples_of (take result.0 bytes.now)) }
        ensures intervals { (front : List ℤ) → StandsFor self.old front
            → intervals_at pace (settings_of self.old) (front ++ samples_of (take result.0 bytes.now))
            ≡ intervals_at pace (settings_of self.old) front ++ intervals_in result.1 }
        ensures last { IfSome result.1.rest (λ rest. (front : List ℤ) → StandsFor self.old front
            → distances_by (settings_of self.old) (front ++ samples_of (take (result.0 - 2) bytes.now))
            ≡ distances_by (settings_of self.old) front) }
    {
        let before = self.passed_at(pace);
        let (count, distance) = self.run(bytes);
        (
            count,
            pace.intervals(before, distance, self.passed_at(pace)),
        )
    }
}
