//! From intervals to events, one interval at a time. Read next: `tracker`.
ghost use Rattle.std.specs.Prelude.{◌≡◌, ℕ, ◌<◌, ◌≤◌, ◌+◌, ◌*◌, List, [], ◌∷◌, ◌++◌, reverse, None};
ghost use Rattle.limits.specs.declared.recording.TheConstants.{MAX_INTERVAL, MAX_INTERVALS};
ghost use Rattle.direction_reader.specs.Brings.{Brings};
ghost use Rattle.direction_reader.specs.declared.event.Event.{Event};
ghost use Rattle.direction_reader.specs.declared.event.Events.{Events};
ghost use Rattle.direction_reader.specs.Events.{event_list};
ghost use Rattle.direction_reader.specs.LatestBits.{EndsInCandidate};
ghost use Rattle.direction_reader.specs.KeptStep.{IsStepped};
ghost use Rattle.direction_reader.specs.LatestCells.{no_cells, StepBrings};
ghost use Rattle.direction_reader.specs.ListEvents.{AreEvents};
ghost use Rattle.direction_reader.specs.Mirror.{MirrorsTheTape};
ghost use Rattle.direction_reader.specs.Reader.{Takes};
ghost use Rattle.direction_reader.specs.StandsFor.{StandsFor, Tells, TrackerStandsFor, MayTell};
ghost use Rattle.direction_reader.specs.Tape.{TellsTheTape, FindsTheTape};
ghost use Rattle.direction_reader.specs.Tracker.{profile_of};
ghost use Rattle.direction_reader.specs.Tracking.{searching};

use crate::brought::{Brought, Taken};
use crate::event::{Event, Events};
use crate::latest_cells::LatestCells;
use crate::laws::a_reader_tells_the_tape;
use crate::state::Step;
use crate::tracker::Tracker;
use biphase::Profile;
use limits::MAX_INTERVAL;
use std::marker::Model;
use tc_address::System;

/// Reads the words of a recording, in either direction, one interval at a time.
#[derive(Drop)]
pub struct DirectionReader {
    system: System,
    intervals: u64,
    tick: u64,
    tracker: Tracker,
    cells: LatestCells,
}

impl Model for DirectionReader {
    ghost use Rattle.direction_reader.specs.Invariants.{IsReading};
    ghost use Rattle.direction_reader.specs.Reader.{ReaderState};

    ghost Value = { ReaderState };

    ghost view = { λ r. record {
      system = r.system;
      intervals = r.intervals;
      tick = r.tick;
      tracker = r.tracker;
      cells = r.cells;
    } };

    ghost invariant = { λ r. IsReading r.intervals r.tick r.tracker r.cells };
}

impl DirectionReader {
    /// A reader of a recording of this system, whose cells keep the tolerance of the profile.
    pub fn new(system: System, profile: Profile) -> DirectionReader
        ensures value { result ≡ record {
          system = system;
          intervals = 0;
          tick = 0;
          tracker = searching profile;
          cells = no_cells 0;
        } }
        ensures stands { StandsFor result [] [] }
        ensures searches { TrackerStandsFor result.tracker [] [] None }
    {
        DirectionReader {
            system,
            intervals: 0,
            tick: 0,
            tracker: Tracker::new(profile),
            cells: LatestCells::new(),
        }
    }

    /// How many intervals were taken.
    pub fn intervals(&self) -> u64
        ensures value { result ≡ self.now.intervals }
        ensures within { result ≤ MAX_INTERVALS }
    {
        self.intervals
    }

    /// The sum of the intervals taken, in ticks.
    pub fn tick(&self) -> u64
        ensures value { result ≡ self.now.tick }
        ensures within { result ≤ MAX_INTERVALS * MAX_INTERVAL }
    {
        self.tick
    }

    /// Takes the next interval, of `x` ticks, and answers what it brought.
    #[inline(always)]
    pub fn feed(&mut self, x: u32) -> Events
        requires least { 1 ≤ x }
        requires most { x ≤ MAX_INTERVAL }
        requires room { self.old.intervals < MAX_INTERVALS }
        ensures next { Takes self.old x self.new }
        ensures within { self.new.tick ≤ self.new.intervals * MAX_INTERVAL }
        ensures brings { Brings self.new.intervals self.new.tick result }
        ensures stands { (intervals : List ℕ) (events : List Event)
            → StandsFor self.old intervals events
            → StandsFor self.new (intervals ++ x ∷ []) (events ++ event_list result) }
        // And what they say of a tape within the tolerance, of one between damage, and of one whose
        // intervals in reverse order have these events.
        ensures truth { (intervals : List ℕ) (events : List Event)
            → StandsFor self.old intervals events
            → TellsTheTape self.new.system (profile_of self.new.tracker) (intervals ++ x ∷ [])
            (events ++ event_list result) }
        ensures damage { (intervals : List ℕ) (events : List Event)
            → StandsFor self.old intervals events
            → FindsTheTape self.new.system (profile_of self.new.tracker) (intervals ++ x ∷ [])
            (events ++ event_list result) }
        ensures mirror { (intervals : List ℕ) (events mirrored : List Event)
            → StandsFor self.old intervals events
            → AreEvents self.new.system (profile_of self.new.tracker) (reverse (intervals ++ x ∷ [])) mirrored
            → MirrorsTheTape self.new.system (profile_of self.new.tracker) (intervals ++ x ∷ [])
            (events ++ event_list result) mirrored }
    {
        a_reader_tells_the_tape();
        let brought = self.step(x);
        self.told(brought)
    }

    /// The events of the latest interval, as `events` gives them: nearly every one brought nothing, which is seen at
    /// once.
    #[inline(always)]
    pub(crate) fn told(&self, brought: Brought) -> Events
        requires { 1 ≤ self.now.intervals }
        ensures brings { Brings self.now.intervals self.now.tick result }
        ensures told { MayTell self.now brought → Tells self.now brought result }
    {
        match brought {
            Brought::Nothing => Events::none(),
            brought => self.events(brought),
        }
    }

    /// Takes the next interval, of `x` ticks, and returns whether it brought an event. `events` then
    /// gives what it brought.
    #[inline(always)]
    pub fn step(&mut self, x: u32) -> Brought
        requires least { 1 ≤ x }
        requires most { x ≤ MAX_INTERVAL }
        requires room { self.old.intervals < MAX_INTERVALS }
        ensures next { Takes self.old x self.new }
        ensures within { self.new.tick ≤ self.new.intervals * MAX_INTERVAL }
        ensures taken { 1 ≤ self.new.intervals }
        ensures may { MayTell self.new result }
        ensures candidate { result ≡ Brought.Candidate → EndsInCandidate self.new.cells.bits }
        ensures stands { (intervals : List ℕ) (events : List Event) (own : Events)
            → StandsFor self.old intervals events → Tells self.new result own
            → StandsFor self.new (intervals ++ x ∷ []) (events ++ event_list own) }
    {
        self.take(x).brought
    }

    /// Takes the next interval, as `step` does, and returns what it did to the stretch too.
    #[inline(always)]
    pub(crate) fn take(&mut self, x: u32) -> Taken
        requires least { 1 ≤ x }
        requires most { x ≤ MAX_INTERVAL }
        requires room { self.old.intervals < MAX_INTERVALS }
        ensures next { Takes self.old x self.new }
        ensures within { self.new.tick ≤ self.new.intervals * MAX_INTERVAL }
        ensures taken { 1 ≤ self.new.intervals }
        ensures may { MayTell self.new result.brought }
        ensures candidate { result.brought ≡ Brought.Candidate → EndsInCandidate self.new.cells.bits }
        ensures stepped { IsStepped self.old.tracker x self.new.tracker result.step }
        ensures step { StepBrings self.new.cells.bits result.step result.brought }
        ensures stands { (intervals : List ℕ) (events : List Event) (own : Events)
            → StandsFor self.old intervals events → Tells self.new result.brought own
            → StandsFor self.new (intervals ++ x ∷ []) (events ++ event_list own) }
    {
        let before = self.tick;
        let now = before + u64::from(x);
        self.tick = now;
        self.intervals += 1;
        let step = self.tracker.step(x);
        let brought = match step {
            // The compiler adds a known bit to the window at less cost.
            Step::Cell(false) => self.cells.add(now, false),
            Step::Cell(true) => self.cells.add(now, true),
            Step::Nothing => Brought::Nothing,
            Step::FirstZero => {
                self.cells.begin(before);
                let _ = self.cells.add(now, false);
                Brought::Nothing
            }
            Step::ZeroBefore(zero) => {
                self.cells.begin(before - u64::from(zero));
                let _ = self.cells.add(before, false);
                Brought::Nothing
            }
            Step::Break => Brought::Break,
        };
        Taken { step, brought }
    }

    /// The events of the latest interval, for which `step` returned `brought`.
    #[cold]
    #[inline(never)]
    pub fn events(&self, brought: Brought) -> Events
        requires { 1 ≤ self.now.intervals }
        ensures brings { Brings self.now.intervals self.now.tick result }
        ensures told { MayTell self.now brought → Tells self.now brought result }
    {
        match brought {
            Brought::Nothing => Events::none(),
            Brought::Candidate => {
                if self.tracker.is_at_cell() {
                    self.cells.events(self.system, self.tick)
                } else {
                    Events::none()
                }
            }
            Brought::Break => Events::one(Event::Lost {
                interval: self.intervals - 1,
                tick: self.tick,
            }),
        }
    }
}
