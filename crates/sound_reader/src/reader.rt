//! A reader of sound. Read next: `laws`.
ghost use Rattle.std.specs.Prelude.{◌≡◌, ◌+◌, ◌≤◌, ◌<◌, ◌↔◌, IsTrue, [], length, take, true, false, None, IfSome};
ghost use Rattle.std.specs.Prelude.{ℤ, List, sum};
ghost use Rattle.direction_reader.specs.declared.event.Event.{Event};
ghost use Rattle.direction_reader.specs.declared.event.Events.{Events};
ghost use Rattle.direction_reader.specs.Events.{event_list, no_events};
ghost use Rattle.direction_reader.specs.StandsFor.{MayTell, Tells};
ghost use Rattle.limits.specs.declared.recording.TheConstants.{MAX_INTERVAL, MAX_INTERVALS};
ghost use Rattle.sound_reader.specs.Settings.{AreInRange};
ghost use Rattle.sound_reader.specs.Sound.{is_full, Brings, Found, IsSettled, NoneButTheLatestTells, OnlyPass, Reads};
ghost use Rattle.sound_reader.specs.Sound.{intervals_of, AllElseIsLater, StandsFor};
ghost use Rattle.sound_reader.specs.Waiting.{count_of, is_nothing, AreIntervals};

use crate::laws::{what_is_given_are_the_events_of_the_samples, what_is_told_later_ends_later};
use crate::settings::SoundSettings;
use crate::waiting::{alone, next};
use direction_reader::{Brought, DirectionReader, Events};
use limits::{MAX_INTERVAL, MAX_INTERVALS};
use pcm_front::laws::intervals_of_a_front_come_first;
use pcm_front::{Intervals, Slicer};
use std::marker::Model;

/// How many samples are taken, at most: 2 to the 50th, seven hundred years of 48,000 a second.
pub const MAX_SAMPLES: u64 = 1_125_899_906_842_624;

/// Reads the words of a sound, in either direction, some samples at a time.
#[derive(Drop)]
pub struct SoundReader {
    settings: SoundSettings,
    slicer: Slicer,
    reader: DirectionReader,
    /// How many samples were taken.
    samples: u64,
    /// The intervals that are found, and not read yet.
    waiting: Intervals,
}

impl Model for SoundReader {
    ghost use Rattle.sound_reader.specs.Sound.{IsKept, SoundState};

    ghost Value = { SoundState };

    ghost view = { λ s. record {
      settings = s.settings;
      slicer = s.slicer;
      reader = s.reader;
      samples = s.samples;
      waiting = s.waiting;
    } };

    ghost invariant = { λ s. IsKept (record {
      settings = s.settings;
      slicer = s.slicer;
      reader = s.reader;
      samples = s.samples;
      waiting = s.waiting;
    }) };
}

impl SoundReader {
    /// Before the first sample.
    pub fn new(settings: SoundSettings) -> SoundReader
        requires { AreInRange settings }
        ensures settings { result.settings ≡ settings }
        ensures stands { StandsFor result [] [] }
        ensures settled { IsSettled result }
        ensures room { is_full result ≡ false }
    {
        SoundReader {
            settings,
            slicer: Slicer::from_the_start(settings.fineness, settings.threshold, settings.smooth),
            reader: DirectionReader::new(settings.system, settings.profile),
            samples: 0,
            waiting: Intervals {
                length: 1,
                whole: 0,
                rest: None,
                begun: 0,
            },
        }
    }

    /// How it reads.
    pub fn settings(&self) -> SoundSettings
        ensures { result ≡ self.now.settings }
    {
        self.settings
    }

    /// Whether it takes no more: it was given as many samples as it takes, or they had as many
    /// intervals as a recording may have.
    pub fn is_full(&self) -> bool
        ensures { result ≡ is_full self.now }
    {
        self.reader.intervals() >= MAX_INTERVALS || self.samples >= MAX_SAMPLES
    }

    /// Up to which tick all events are told: all that is told later ends there or behind it, whatever samples
    /// follow. It is the sum of the intervals that were read, so it stands still during a silence, or goes on
    /// piece by piece, as the pace says.
    pub fn told_until(&self) -> u64
        ensures value { result ≡ self.now.reader.tick }
        ensures later { AllElseIsLater self.now result }
        ensures settled { (samples : List ℤ) (told : List Event) → StandsFor self.now samples told
            → IsSettled self.now → result ≡ sum (intervals_of self.now.settings samples) }
    {
        what_is_told_later_ends_later();
        self.reader.tick()
    }

    /// Takes samples from the front up to the first one that brings an event, or else all of them. Gives how
    /// many these are, and what they brought. An interval that is found may bring an event, and the one
    /// found with it another: those come with the next calls, which take no sample. Whole pieces of a distance
    /// are found with the sample that ends it, or with the last of these.
    pub fn read(&mut self, samples: &[i16]) -> (usize, Events)
        ensures within { result.0 ≤ length samples.now }
        ensures settings { self.new.settings ≡ self.old.settings }
        ensures brings { Brings self.old self.new (take result.0 samples.now) (event_list result.1) }
        ensures latest { ¬ (result.1 ≡ no_events) → NoneButTheLatestTells self.old result.0 samples.now }
        ensures all { result.1 ≡ no_events → is_full self.new ≡ false
            → (result.0 ≡ length samples.now) × IsSettled self.new }
    {
        what_is_given_are_the_events_of_the_samples();
        let events = self.read_waiting();
        if !are_none(&events) {
            return (0, events);
        }
        let mut at = 0;
        'reading: while at < samples.len() && !self.is_full() {
            let (count, found) = self.slice(&samples[at..]);
            at += count;
            match found {
                Some(brought) => {
                    if is_nothing(brought) {
                        continue;
                    }
                    let events = self.events(brought);
                    if !are_none(&events) {
                        return (at, events);
                    }
                }
                None => {
                    let events = self.read_waiting();
                    if !are_none(&events) {
                        return (at, events);
                    }
                }
            }
        }
        (at, none())
    }

    /// What the latest interval brought.
    fn events(&self, brought: Brought) -> Events
        requires may { MayTell self.now.reader brought }
        requires some { 1 ≤ self.now.reader.intervals }
        ensures { Tells self.now.reader brought result }
    {
        self.reader.events(brought)
    }

    /// Reads the intervals that wait, up to the first that brings an event, and gives what it brought.
    #[cold]
    #[inline(never)]
    fn read_waiting(&mut self) -> Events
        ensures rest { self.new ≡ record self.old { reader = self.new.reader; waiting = self.new.waiting } }
        ensures brings { Brings self.old self.new [] (event_list result) }
        ensures settled { result ≡ no_events → is_full self.new ≡ false → IsSettled self.new }
    {
        'waiting: loop {
            let brought = self.pass_waiting();
            if is_nothing(brought) {
                break;
            }
            let events = self.reader.events(brought);
            if !are_none(&events) {
                return events;
            }
        }
        none()
    }

    /// Reads the intervals that wait, up to the first that may bring an event, and returns whether it
    /// does. The events themselves are worked out only then.
    fn pass_waiting(&mut self) -> Brought
        ensures rest { self.new ≡ record self.old { reader = self.new.reader; waiting = self.new.waiting } }
        ensures may { MayTell self.new.reader result }
        ensures some { is_nothing result ≡ false → 1 ≤ self.new.reader.intervals }
        ensures fewer { is_nothing result ≡ false → count_of self.new.waiting < count_of self.old.waiting }
        ensures brings { (own : Events) → Tells self.new.reader result own
            → Brings self.old self.new [] (event_list own) }
        ensures settled { is_nothing result ≡ true → is_full self.new ≡ false → IsSettled self.new }
    {
        'waiting: while self.reader.intervals() < MAX_INTERVALS {
            match next(&mut self.waiting) {
                Some(x) => {
                    let brought = self.step(x);
                    if !is_nothing(brought) {
                        return brought;
                    }
                }
                None => break,
            }
        }
        Brought::Nothing
    }

    /// Reads an interval, of `x` ticks, and returns whether it may have brought an event.
    #[inline(always)]
    fn step(&mut self, x: u32) -> Brought
        requires least { 1 ≤ x }
        requires most { x ≤ MAX_INTERVAL }
        requires room { self.old.reader.intervals < MAX_INTERVALS }
        ensures rest { self.new ≡ record self.old { reader = self.new.reader } }
        ensures may { MayTell self.new.reader result }
        ensures some { 1 ≤ self.new.reader.intervals }
        ensures reads { (own : Events) → Tells self.new.reader result own
            → Reads self.old.reader self.new.reader x (event_list own) }
    {
        self.reader.step(x)
    }

    /// Takes samples from the front, up to the first that brings intervals. Nearly always it brings one, which
    /// is read at once, and whether that may have brought an event is returned. Others wait then.
    #[inline(always)]
    fn slice(&mut self, samples: &[i16]) -> (usize, Option<Brought>)
        requires some { 1 ≤ length samples.now }
        requires room { is_full self.old ≡ false }
        requires settled { IsSettled self.old }
        ensures some { 1 ≤ result.0 }
        ensures within { result.0 ≤ length samples.now }
        ensures settings { self.new.settings ≡ self.old.settings }
        ensures pass { OnlyPass self.old result.0 samples.now }
        ensures waits { result.1 ≡ None → Brings self.old self.new (take result.0 samples.now) [] }
        ensures found { IfSome result.1 (Found self.old self.new (take result.0 samples.now)) }
    {
        let (count, found) = self.cut(samples);
        match alone(&found) {
            Some(x) => (count, Some(self.step(x))),
            None => {
                self.waiting = found;
                (count, None)
            }
        }
    }

    /// Takes samples from the front, up to the first that brings intervals, and gives these.
    #[inline(always)]
    fn cut(&mut self, samples: &[i16]) -> (usize, Intervals)
        requires some { 1 ≤ length samples.now }
        requires room { self.old.samples < MAX_SAMPLES }
        requires settled { IsSettled self.old }
        ensures some { 1 ≤ result.0 }
        ensures within { result.0 ≤ length samples.now }
        ensures settings { self.new.settings ≡ self.old.settings }
        ensures reader { self.new.reader ≡ self.old.reader }
        ensures waiting { self.new.waiting ≡ self.old.waiting }
        ensures intervals { AreIntervals result.1 }
        ensures brings { Brings self.old (record self.new { waiting = result.1 }) (take result.0 samples.now) [] }
        ensures pass { OnlyPass self.old result.0 samples.now }
    {
        intervals_of_a_front_come_first();
        let room = MAX_SAMPLES - self.samples;
        let most = if samples.len() as u64 <= room {
            samples.len()
        } else {
            room as usize
        };
        let (count, found) = self
            .slicer
            .intervals_of_samples(self.settings.pace, &samples[..most]);
        self.samples += count as u64;
        (count, found)
    }
}

/// No event.
fn none() -> Events
    ensures { result ≡ no_events }
{
    Events {
        first: None,
        second: None,
    }
}

/// Whether there is no event.
fn are_none(events: &Events) -> bool
    ensures { IsTrue result ↔ events.now ≡ no_events }
{
    events.first.is_none() && events.second.is_none()
}

/// Whether an interval brought nothing.
#[inline(always)]
fn is_nothing(brought: Brought) -> bool
    ensures { result ≡ is_nothing brought }
{
    match brought {
        Brought::Nothing => true,
        Brought::Candidate | Brought::Break => false,
    }
}
