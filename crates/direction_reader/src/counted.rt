//! From intervals to events, when each word needs one that counts on with it. Read next: `reader`, and with its events
//! `counting`.
ghost use Rattle.std.specs.Prelude.{◌≡◌, ℕ, ◌<◌, ◌≤◌, ◌+◌, ◌*◌, List, [], ◌∷◌, ◌++◌, length, map, None};
ghost use Rattle.limits.specs.declared.recording.TheConstants.{MAX_INTERVAL, MAX_INTERVALS};
ghost use Rattle.direction_reader.specs.declared.firm_event.FirmEvent.{FirmEvent};
ghost use Rattle.direction_reader.specs.ConsecutiveStep.{consecutive_list, ConsecutiveBrings};
ghost use Rattle.direction_reader.specs.Counted.{AreCountedEvents};
ghost use Rattle.direction_reader.specs.CountedStep.{counted_until, CountedStandsFor};
ghost use Rattle.direction_reader.specs.Firm.{told_tick, DoNotFall};
ghost use Rattle.direction_reader.specs.LatestCells.{no_cells};
ghost use Rattle.direction_reader.specs.Reader.{Takes};
ghost use Rattle.direction_reader.specs.Tracker.{profile_of};
ghost use Rattle.direction_reader.specs.Tracking.{searching};

use crate::consecutive_event::ConsecutiveEvents;
use crate::counting::Counting;
use crate::laws::a_reader_gives_the_events_of_its_list;
use crate::reader::DirectionReader;
use biphase::Profile;
use limits::MAX_INTERVAL;
use std::marker::Model;
use tc_address::System;

/// Reads the words of a recording, in either direction, one interval at a time. A word that no other word counts on
/// with is alone: it does not count on from the word before it, and what comes next is no word that counts on from it.
#[derive(Drop)]
pub struct CountedReader {
    reader: DirectionReader,
    counting: Counting,
}

impl Model for CountedReader {
    ghost use Rattle.std.specs.Prelude.{IfSome};
    ghost use Rattle.direction_reader.specs.CountedStep.{CountedState, IsHeldBy};

    ghost Value = { CountedState };

    ghost view = { λ r. record { reader = r.reader; counting = r.counting } };

    ghost invariant = { λ r. IfSome r.counting.held (IsHeldBy r.reader.tick) };
}

impl CountedReader {
    /// A reader of a recording of this system, whose cells keep the tolerance of the profile.
    pub fn new(system: System, profile: Profile) -> CountedReader
        ensures value { result ≡ record {
          reader = record {
            system = system;
            intervals = 0;
            tick = 0;
            tracker = searching profile;
            cells = no_cells 0;
          };
          counting = record { word = None; held = None };
        } }
        ensures stands { CountedStandsFor result [] [] }
    {
        CountedReader {
            reader: DirectionReader::new(system, profile),
            counting: Counting::new(),
        }
    }

    /// How many intervals were taken.
    pub fn intervals(&self) -> u64
        ensures value { result ≡ self.now.reader.intervals }
        ensures within { result ≤ MAX_INTERVALS }
    {
        self.reader.intervals()
    }

    /// The sum of the intervals taken, in ticks.
    pub fn tick(&self) -> u64
        ensures value { result ≡ self.now.reader.tick }
        ensures within { result ≤ MAX_INTERVALS * MAX_INTERVAL }
    {
        self.reader.tick()
    }

    /// Up to which tick all events are given: that of a word that is held, and else the sum of the intervals.
    pub fn told_until(&self) -> u64
        ensures value { result ≡ counted_until self.now }
        ensures within { result ≤ self.now.reader.tick }
        ensures most { result ≤ MAX_INTERVALS * MAX_INTERVAL }
    {
        let now = self.reader.tick();
        match &self.counting.held {
            Some(event) => event.tick(),
            None => now,
        }
    }

    /// Takes the next interval, of `x` ticks, and gives the events that it decides. A word that does not count on from
    /// the one before it is given with the next event, or by `finish`.
    pub fn feed(&mut self, x: u32) -> ConsecutiveEvents
        requires least { 1 ≤ x }
        requires most { x ≤ MAX_INTERVAL }
        requires room { self.old.reader.intervals < MAX_INTERVALS }
        ensures next { Takes self.old.reader x self.new.reader }
        ensures within { self.new.reader.tick ≤ self.new.reader.intervals * MAX_INTERVAL }
        ensures brings { ConsecutiveBrings self.new.reader.intervals self.new.reader.tick result }
        ensures few { length (consecutive_list result) ≤ 3 }
        ensures in_turn { DoNotFall (counted_until self.old) (map told_tick (consecutive_list result))
            (counted_until self.new) }
        ensures stands { (intervals : List ℕ) (told : List FirmEvent) → CountedStandsFor self.old intervals told
            → CountedStandsFor self.new (intervals ++ x ∷ []) (told ++ consecutive_list result) }
    {
        let events = self.reader.feed(x);
        self.counting.hear(events)
    }

    /// The events at the end of the input, if no interval follows: a word that is held is alone.
    pub fn finish(&self) -> ConsecutiveEvents
        ensures brings { ConsecutiveBrings self.now.reader.intervals self.now.reader.tick result }
        ensures few { length (consecutive_list result) ≤ 3 }
        ensures in_turn { DoNotFall (counted_until self.now) (map told_tick (consecutive_list result))
            self.now.reader.tick }
        ensures all { (intervals : List ℕ) (told : List FirmEvent) → CountedStandsFor self.now intervals told
            → AreCountedEvents self.now.reader.system (profile_of self.now.reader.tracker) intervals
            (told ++ consecutive_list result) }
    {
        a_reader_gives_the_events_of_its_list();
        self.counting.last()
    }
}
