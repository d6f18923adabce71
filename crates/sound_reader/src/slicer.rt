//! A slicer of sound: samples in, intervals out. Read next: `laws`.
ghost use Rattle.std.specs.Prelude.{◌≡◌, ◌+◌, ◌≤◌, ◌<◌, ◌++◌, ℕ, ℤ, List, [], ◌∷◌, length, take, drop, false, None};
ghost use Rattle.std.specs.Option.{option_to_list};
ghost use Rattle.pcm_front.specs.StandsFor as pcm;
ghost use Rattle.pcm_front.specs.StandsFor.{settings_of, tick_of};
ghost use Rattle.sound_reader.specs.Slicer.{is_full, sliced_as, CanSlice, Gives, IsSettled, StandsFor};

use crate::reader::MAX_SAMPLES;
use crate::slicer_settings::SlicerSettings;
use crate::waiting::next;
use pcm_front::{Intervals, Slicer, Start};
use std::marker::Model;

/// Slices a sound into the intervals between its crossings, some samples at a time.
#[derive(Drop)]
pub struct SoundSlicer {
    settings: SlicerSettings,
    slicer: Slicer,
    /// How many samples were taken.
    samples: u64,
    /// The intervals that are found, and not given yet.
    waiting: Intervals,
}

impl Model for SoundSlicer {
    ghost use Rattle.sound_reader.specs.Slicer.{IsKept, SlicerState};

    ghost Value = { SlicerState };

    ghost view = { λ s. record {
      settings = s.settings;
      slicer = s.slicer;
      samples = s.samples;
      waiting = s.waiting;
    } };

    ghost invariant = { λ s. IsKept (record {
      settings = s.settings;
      slicer = s.slicer;
      samples = s.samples;
      waiting = s.waiting;
    }) };
}

impl SoundSlicer {
    /// Before the first sample.
    pub fn new(settings: SlicerSettings) -> SoundSlicer
        requires { CanSlice settings }
        ensures settings { result.settings ≡ settings }
        ensures stands { StandsFor result [] [] }
        ensures settled { IsSettled result }
        ensures room { is_full result ≡ false }
    {
        SoundSlicer {
            settings,
            slicer: slicer_of(&settings),
            samples: 0,
            waiting: Intervals {
                length: 1,
                whole: 0,
                rest: None,
                begun: 0,
            },
        }
    }

    /// Whether it takes no more samples: it was given as many as it takes. What waits is still given.
    pub fn is_full(&self) -> bool
        ensures { result ≡ is_full self.now }
    {
        self.samples >= MAX_SAMPLES
    }

    /// Takes samples from the front, and writes the intervals that they bring, as long as there is room. Gives
    /// how many samples were taken, and how many intervals were written. The last sample that was taken may have
    /// brought intervals that are still to be written: those come with the next call.
    pub fn write(&mut self, samples: &[i16], ticks: &mut [u32]) -> (usize, usize)
        ensures used { result.0 ≤ length samples.now }
        ensures made { result.1 ≤ length ticks.old }
        ensures settings { self.new.settings ≡ self.old.settings }
        ensures goes { Gives self.old self.new (take result.0 samples.now) (take result.1 ticks.new) }
        ensures rest { drop result.1 ticks.new ≡ drop result.1 ticks.old }
        ensures settled { result.1 < length ticks.old → IsSettled self.new }
        ensures all { result.1 < length ticks.old → is_full self.new ≡ false → result.0 ≡ length samples.now }
        ensures few { length ticks.old ≡ 0 → (result.0 ≡ 0) × (result.1 ≡ 0) × (self.new ≡ self.old) }
    {
        let mut at = 0;
        let mut made = self.go_on(ticks, 0);
        'writing: while at < samples.len() && made < ticks.len() && !self.is_full() {
            at += self.cut(&samples[at..]);
            made = self.go_on(ticks, made);
        }
        (at, made)
    }

    /// Writes intervals that wait, as long as there is room, behind those that are made. Gives how many are
    /// made then.
    fn go_on(&mut self, ticks: &mut [u32], made: usize) -> usize
        requires { made ≤ length ticks.old }
        ensures least { made ≤ result }
        ensures most { result ≤ length ticks.old }
        ensures settings { self.new.settings ≡ self.old.settings }
        ensures writes { (front : List ℤ) (given : List ℕ) → StandsFor self.old front (given ++ take made ticks.old)
            → StandsFor self.new front (given ++ take result ticks.new) }
        ensures rest { drop result ticks.new ≡ drop result ticks.old }
        ensures settled { result < length ticks.old → IsSettled self.new }
        ensures few { length ticks.old ≡ made → self.new ≡ self.old }
    {
        let mut at = made;
        'waiting: while at < ticks.len() {
            match self.next() {
                Some(x) => at = put(x, ticks, at),
                None => break,
            }
        }
        at
    }

    /// The first of the intervals that wait.
    #[inline(always)]
    fn next(&mut self) -> Option<u32>
        ensures settings { self.new.settings ≡ self.old.settings }
        ensures gives { Gives self.old self.new [] (option_to_list result) }
        ensures settled { result ≡ None → IsSettled self.new }
    {
        next(&mut self.waiting)
    }

    /// Takes samples from the front, up to the first that brings intervals, which wait then. Gives how many
    /// samples these are.
    #[inline(always)]
    fn cut(&mut self, samples: &[i16]) -> usize
        requires some { 1 ≤ length samples.now }
        requires room { is_full self.old ≡ false }
        requires settled { IsSettled self.old }
        ensures some { 1 ≤ result }
        ensures within { result ≤ length samples.now }
        ensures settings { self.new.settings ≡ self.old.settings }
        ensures gives { Gives self.old self.new (take result samples.now) [] }
    {
        let room = MAX_SAMPLES - self.samples;
        let most = if samples.len() as u64 <= room {
            samples.len()
        } else {
            room as usize
        };
        let (count, found) = self
            .slicer
            .intervals_of_samples(self.settings.pace, &samples[..most]);
        self.samples += count as u64;
        self.waiting = found;
        count
    }
}

/// A slicer before the first sample.
fn slicer_of(s: &SlicerSettings) -> Slicer
    requires { CanSlice s.now }
    ensures settings { settings_of result ≡ sliced_as s.now }
    ensures tick { tick_of result ≡ 0 }
    ensures stands { pcm.StandsFor result [] }
{
    match s.start {
        Start::Crossing => Slicer::summing(s.fineness, s.threshold, s.smooth),
        Start::Tick => Slicer::from_the_start(s.fineness, s.threshold, s.smooth),
    }
}

/// Writes an interval behind those that are made, and gives how many are made then.
#[inline(always)]
fn put(x: u32, ticks: &mut [u32], made: usize) -> usize
    requires { made < length ticks.old }
    ensures count { result ≡ made + 1 }
    ensures writes { take result ticks.new ≡ take made ticks.old ++ x ∷ [] }
    ensures rest { drop result ticks.new ≡ drop result ticks.old }
{
    ticks[made] = x;
    made + 1
}
