//! From intervals to events, when each word needs a witness or the word that follows it on the tape. Read
//! next: `firm_reader`, and with its events `consecutive_event` and `neighbours`.
ghost use Rattle.std.specs.Prelude.{◌≡◌, ℕ, ◌<◌, ◌≤◌, ◌+◌, ◌*◌, List, [], ◌∷◌, ◌++◌, map, None};
ghost use Rattle.limits.specs.declared.recording.TheConstants.{MAX_INTERVAL, MAX_INTERVALS};
ghost use Rattle.direction_reader.specs.declared.firm_event.FirmEvent.{FirmEvent};
ghost use Rattle.direction_reader.specs.Beside.{none_beside};
ghost use Rattle.direction_reader.specs.Consecutive.{AreConsecutiveEvents};
ghost use Rattle.direction_reader.specs.ConsecutiveStep.{consecutive_list, consecutive_until};
ghost use Rattle.direction_reader.specs.ConsecutiveStep.{ConsecutiveBrings, ConsecutiveStandsFor};
ghost use Rattle.direction_reader.specs.Firm.{told_tick, DoNotFall};
ghost use Rattle.direction_reader.specs.LatestCells.{no_cells};
ghost use Rattle.direction_reader.specs.Reader.{Takes};
ghost use Rattle.direction_reader.specs.Tracker.{profile_of};
ghost use Rattle.direction_reader.specs.Tracking.{searching};

use crate::consecutive_event::ConsecutiveEvents;
use crate::firm_event::FirmEvent;
use crate::firm_reader::FirmReader;
use crate::neighbours::{held_of, latest_of};
use biphase::Profile;
use limits::MAX_INTERVAL;
use std::marker::Model;
use tc_address::System;

/// Reads the words of a recording, in either direction, one interval at a time. Each of them needs
/// a witness, as with `FirmReader`, or the word that follows it on the tape beside it: one that joins it
/// and counts on.
#[derive(Drop)]
pub struct ConsecutiveReader {
    reader: FirmReader,
    /// The latest event. A word without a witness that is played forward is held until the next event
    /// comes, and one that is played backward is compared with the event before it.
    latest: Option<FirmEvent>,
}

impl Model for ConsecutiveReader {
    ghost use Rattle.std.specs.Prelude.{IfSome};
    ghost use Rattle.direction_reader.specs.ConsecutiveStep.{ConsecutiveState, IsKeptBy};
    ghost use Rattle.direction_reader.specs.FirmReader.{told_until};

    ghost Value = { ConsecutiveState };

    ghost view = { λ r. record { reader = r.reader; latest = r.latest } };

    ghost invariant = { λ r. IfSome r.latest (IsKeptBy (told_until r.reader)) };
}

impl ConsecutiveReader {
    /// A reader of a recording of this system, whose cells keep the tolerance of the profile.
    pub fn new(system: System, profile: Profile) -> ConsecutiveReader
        ensures value { result ≡ record {
          reader = record {
            reader = record {
              system = system;
              intervals = 0;
              tick = 0;
              tracker = searching profile;
              cells = no_cells 0;
            };
            beside = none_beside;
            waits = None;
          };
          latest = None;
        } }
        ensures stands { ConsecutiveStandsFor result [] [] }
    {
        ConsecutiveReader {
            reader: FirmReader::new(system, profile),
            latest: None,
        }
    }

    /// How many intervals were taken.
    pub fn intervals(&self) -> u64
        ensures value { result ≡ self.now.reader.reader.intervals }
        ensures within { result ≤ MAX_INTERVALS }
    {
        self.reader.intervals()
    }

    /// The sum of the intervals taken, in ticks.
    pub fn tick(&self) -> u64
        ensures value { result ≡ self.now.reader.reader.tick }
        ensures within { result ≤ MAX_INTERVALS * MAX_INTERVAL }
    {
        self.reader.tick()
    }

    /// Up to which tick all events are given: that of the word that is held, and else as `FirmReader` says.
    pub fn told_until(&self) -> u64
        ensures value { result ≡ consecutive_until self.now }
        ensures within { result ≤ self.now.reader.reader.tick }
        ensures most { result ≤ MAX_INTERVALS * MAX_INTERVAL }
    {
        let until = self.reader.told_until();
        match held_of(&self.latest) {
            Some(event) => event.tick(),
            None => until,
        }
    }

    /// Takes the next interval, of `x` ticks, and gives the events that it completes. A word without a
    /// witness that is played forward is given with the next event, or by `finish`.
    pub fn feed(&mut self, x: u32) -> ConsecutiveEvents
        requires least { 1 ≤ x }
        requires most { x ≤ MAX_INTERVAL }
        requires room { self.old.reader.reader.intervals < MAX_INTERVALS }
        ensures next { Takes self.old.reader.reader x self.new.reader.reader }
        ensures within { self.new.reader.reader.tick ≤ self.new.reader.reader.intervals * MAX_INTERVAL }
        ensures brings { ConsecutiveBrings self.new.reader.reader.intervals self.new.reader.reader.tick result }
        ensures in_turn { DoNotFall (consecutive_until self.old) (map told_tick (consecutive_list result))
            (consecutive_until self.new) }
        ensures stands { (intervals : List ℕ) (told : List FirmEvent) → ConsecutiveStandsFor self.old intervals told
            → ConsecutiveStandsFor self.new (intervals ++ x ∷ []) (told ++ consecutive_list result) }
    {
        let _within = self.reader.told_until();
        let told = self.reader.feed(x);
        let events = ConsecutiveEvents::of(true, &self.latest, &told);
        self.latest = latest_of(&self.latest, &told);
        events
    }

    /// The events at the end of the input, if no interval follows: a word that is held is alone, and one
    /// that waits for its witness is at the edge of its stretch.
    pub fn finish(&self) -> ConsecutiveEvents
        ensures within { self.now.reader.reader.tick ≤ self.now.reader.reader.intervals * MAX_INTERVAL }
        ensures brings { ConsecutiveBrings self.now.reader.reader.intervals self.now.reader.reader.tick result }
        ensures in_turn { DoNotFall (consecutive_until self.now) (map told_tick (consecutive_list result))
            self.now.reader.reader.tick }
        ensures all { (intervals : List ℕ) (told : List FirmEvent) → ConsecutiveStandsFor self.now intervals told
            → AreConsecutiveEvents self.now.reader.reader.system (profile_of self.now.reader.reader.tracker) intervals
            (told ++ consecutive_list result) }
    {
        ConsecutiveEvents::of(false, &self.latest, &self.reader.finish())
    }
}
