//! One reading of a recording, whatever its words are asked for. Read next: `reading_laws`.
ghost use Rattle.std.specs.Prelude.{◌≡◌, ℕ, ◌<◌, ◌≤◌, ◌*◌, List, [], ◌∷◌, ◌++◌, IsTrue, length, map};
ghost use Rattle.limits.specs.declared.recording.TheConstants.{MAX_INTERVAL, MAX_INTERVALS};
ghost use Rattle.direction_reader.specs.declared.firm_event.FirmEvent.{FirmEvent};
ghost use Rattle.direction_reader.specs.declared.witness.Witness.{Witness};
ghost use Rattle.direction_reader.specs.ConsecutiveStep.{consecutive_list, ConsecutiveBrings};
ghost use Rattle.direction_reader.specs.Firm.{told_tick, DoNotFall};
ghost use Rattle.direction_reader.specs.Reading.{most_told, AreEventsAsked, BeginsReading, ReadingState, ReadsOn};
ghost use Rattle.direction_reader.specs.Reading.{TellsItsList};

use crate::brought::Brought;
use crate::consecutive::ConsecutiveReader;
use crate::consecutive_event::ConsecutiveEvents;
use crate::consecutive_laws::a_reader_has_told_what_its_list_tells;
use crate::counted::CountedReader;
use crate::counted_laws::a_reader_has_told_what_counts_in_its_list;
use crate::firm_event::FirmEvents;
use crate::firm_laws::a_reader_has_told_what_no_further_interval_changes;
use crate::firm_reader::FirmReader;
use crate::laws::a_reader_gives_the_events_of_its_list;
use crate::reader::DirectionReader;
use biphase::Profile;
use limits::MAX_INTERVAL;
use tc_address::System;

/// What reads the words of a recording, one interval at a time. A reader that asks words for another witness is one
/// `impl` more.
pub trait Reading: Drop {
    /// What an interval brought. Nearly every one brings nothing, which is known at once.
    type Brought: Copy;

    /// What each word is asked for.
    ghost witness: { Witness };

    /// What it is, in numbers.
    ghost reading: { Self → ReadingState };

    /// What was brought are these events.
    ghost tells: { Self → Self.Brought → List FirmEvent → Type 0 };

    /// This may be brought, in turn from a tick on.
    ghost may: { Self → Self.Brought → ℕ → Type 0 };

    /// What was brought is nothing.
    ghost nothing: { Self.Brought → Type 0 };

    /// Before the first interval of a recording of this system, whose cells keep this tolerance.
    fn start(system: System, profile: Profile) -> Self
        ensures { BeginsReading (reading result) system profile };

    /// Takes the next interval, of `x` ticks.
    fn step(&mut self, x: u32) -> Self::Brought
        requires least { 1 ≤ x }
        requires most { x ≤ MAX_INTERVAL }
        requires room { ReadingState.count (reading self.old) < MAX_INTERVALS }
        ensures next { ReadsOn (reading self.old) x (reading self.new) }
        ensures may { may self.new result (ReadingState.until (reading self.old)) }
        ensures stands { (intervals : List ℕ) (told own : List FirmEvent)
            → ReadingState.stands (reading self.old) intervals told → tells self.new result own
            → ReadingState.stands (reading self.new) (intervals ++ x ∷ []) (told ++ own) };

    /// Whether the interval brought nothing.
    fn is_nothing(brought: &Self::Brought) -> bool
        ensures none { IsTrue result → (reader : Self) → tells reader brought.now [] }
        ensures only { nothing brought.now → IsTrue result };

    /// The events that the latest interval brought.
    fn told(&self, brought: Self::Brought) -> ConsecutiveEvents
        requires { (from : ℕ) × may self.now brought from }
        ensures told { tells self.now brought (consecutive_list result) }
        ensures few { length (consecutive_list result) ≤ most_told witness }
        ensures brings { ConsecutiveBrings (ReadingState.count (reading self.now))
            (ReadingState.tick (reading self.now)) result }
        ensures in_turn { (from : ℕ) → may self.now brought from
            → DoNotFall from (map told_tick (consecutive_list result)) (ReadingState.until (reading self.now)) };

    /// The events that come if the recording ends here.
    fn last(&self) -> ConsecutiveEvents
        ensures few { length (consecutive_list result) ≤ most_told witness }
        ensures brings { ConsecutiveBrings (ReadingState.count (reading self.now))
            (ReadingState.tick (reading self.now)) result }
        ensures in_turn { DoNotFall (ReadingState.until (reading self.now)) (map told_tick (consecutive_list result))
            (ReadingState.tick (reading self.now)) }
        ensures all { (intervals : List ℕ) (told : List FirmEvent)
            → ReadingState.stands (reading self.now) intervals told
            → AreEventsAsked witness (ReadingState.system (reading self.now))
            (ReadingState.profile (reading self.now)) intervals (told ++ consecutive_list result) };

    /// Up to which tick all is told: what is told later ends there or behind it.
    fn until(&self) -> u64
        ensures value { result ≡ ReadingState.until (reading self.now) }
        ensures within { result ≤ ReadingState.tick (reading self.now) };

    /// How many intervals were taken.
    fn intervals(&self) -> u64
        ensures value { result ≡ ReadingState.count (reading self.now) }
        ensures most { result ≤ MAX_INTERVALS };

    /// Their sum in ticks.
    fn ticks(&self) -> u64
        ensures value { result ≡ ReadingState.tick (reading self.now) }
        ensures most { result ≤ MAX_INTERVALS * MAX_INTERVAL };

    /// What it has told is what is told of its list while more may follow.
    fn what_it_has_told()
        ensures { (reader : Self) (intervals : List ℕ) (told : List FirmEvent)
            → ReadingState.stands (reading reader) intervals told
            → TellsItsList witness (reading reader) intervals told };
}

impl Reading for DirectionReader {
    ghost use Rattle.std.specs.Prelude.{◌≡◌};
    ghost use Rattle.direction_reader.specs.declared.brought.Brought.TheVariants.{Nothing};
    ghost use Rattle.direction_reader.specs.declared.witness.Witness.TheVariants.{NotAsked};
    ghost use Rattle.direction_reader.specs.KeptReading.{reading_of_all, tells_all, MayTellFrom};

    type Brought = Brought;

    ghost witness = { NotAsked };

    ghost reading = { λ r. reading_of_all r };

    ghost tells = { λ r brought own. tells_all r brought own };

    ghost may = { λ r brought from. MayTellFrom r brought from };

    ghost nothing = { λ brought. brought ≡ Nothing };

    fn start(system: System, profile: Profile) -> DirectionReader {
        DirectionReader::new(system, profile)
    }

    #[inline(always)]
    fn step(&mut self, x: u32) -> Brought {
        self.step(x)
    }

    #[inline(always)]
    fn is_nothing(brought: &Brought) -> bool {
        match brought {
            Brought::Nothing => true,
            Brought::Candidate | Brought::Break => false,
        }
    }

    #[cold]
    #[inline(never)]
    fn told(&self, brought: Brought) -> ConsecutiveEvents {
        ConsecutiveEvents::all_told(self.events(brought))
    }

    fn last(&self) -> ConsecutiveEvents {
        a_reader_gives_the_events_of_its_list();
        ConsecutiveEvents::none_held(FirmEvents::none())
    }

    #[inline(always)]
    fn until(&self) -> u64 {
        self.tick()
    }

    #[inline(always)]
    fn intervals(&self) -> u64 {
        self.intervals()
    }

    #[inline(always)]
    fn ticks(&self) -> u64 {
        self.tick()
    }

    fn what_it_has_told() {
        a_reader_gives_the_events_of_its_list();
    }
}

impl Reading for FirmReader {
    ghost use Rattle.std.specs.Prelude.{◌≡◌, []};
    ghost use Rattle.direction_reader.specs.declared.witness.Witness.TheVariants.{Asked};
    ghost use Rattle.direction_reader.specs.FirmStep.{firm_list};
    ghost use Rattle.direction_reader.specs.KeptReading.{reading_of_firm, MayTellFirmFrom};

    type Brought = FirmEvents;

    ghost witness = { Asked };

    ghost reading = { λ r. reading_of_firm r };

    ghost tells = { λ _ brought own. own ≡ firm_list brought };

    ghost may = { λ r brought from. MayTellFirmFrom r brought from };

    ghost nothing = { λ told. firm_list told ≡ [] };

    fn start(system: System, profile: Profile) -> FirmReader {
        FirmReader::new(system, profile)
    }

    fn step(&mut self, x: u32) -> FirmEvents {
        let told = self.feed(x);
        let _within = self.told_until();
        told
    }

    fn is_nothing(brought: &FirmEvents) -> bool {
        match (brought.first, brought.second, brought.third) {
            (None, None, None) => true,
            _ => false,
        }
    }

    fn told(&self, brought: FirmEvents) -> ConsecutiveEvents {
        ConsecutiveEvents::none_held(brought)
    }

    fn last(&self) -> ConsecutiveEvents {
        ConsecutiveEvents::none_held(self.finish())
    }

    fn until(&self) -> u64 {
        self.told_until()
    }

    fn intervals(&self) -> u64 {
        self.intervals()
    }

    fn ticks(&self) -> u64 {
        self.tick()
    }

    fn what_it_has_told() {
        a_reader_has_told_what_no_further_interval_changes();
    }
}

impl Reading for ConsecutiveReader {
    ghost use Rattle.std.specs.Prelude.{◌≡◌, []};
    ghost use Rattle.direction_reader.specs.declared.witness.Witness.TheVariants.{Consecutive};
    ghost use Rattle.direction_reader.specs.ConsecutiveStep.{consecutive_list};
    ghost use Rattle.direction_reader.specs.KeptReading.{reading_of_consecutive, MayTellConsecutiveFrom};

    type Brought = ConsecutiveEvents;

    ghost witness = { Consecutive };

    ghost reading = { λ r. reading_of_consecutive r };

    ghost tells = { λ _ brought own. own ≡ consecutive_list brought };

    ghost may = { λ r brought from. MayTellConsecutiveFrom r brought from };

    ghost nothing = { λ told. consecutive_list told ≡ [] };

    fn start(system: System, profile: Profile) -> ConsecutiveReader {
        ConsecutiveReader::new(system, profile)
    }

    fn step(&mut self, x: u32) -> ConsecutiveEvents {
        let told = self.feed(x);
        let _within = self.told_until();
        told
    }

    fn is_nothing(brought: &ConsecutiveEvents) -> bool {
        let events = &brought.events;
        match (brought.held, events.first, events.second, events.third) {
            (None, None, None, None) => true,
            _ => false,
        }
    }

    fn told(&self, brought: ConsecutiveEvents) -> ConsecutiveEvents {
        brought
    }

    fn last(&self) -> ConsecutiveEvents {
        self.finish()
    }

    fn until(&self) -> u64 {
        self.told_until()
    }

    fn intervals(&self) -> u64 {
        self.intervals()
    }

    fn ticks(&self) -> u64 {
        self.tick()
    }

    fn what_it_has_told() {
        a_reader_has_told_what_its_list_tells();
    }
}

impl Reading for CountedReader {
    ghost use Rattle.std.specs.Prelude.{◌≡◌, []};
    ghost use Rattle.direction_reader.specs.declared.witness.Witness.TheVariants.{Counted};
    ghost use Rattle.direction_reader.specs.ConsecutiveStep.{consecutive_list};
    ghost use Rattle.direction_reader.specs.KeptReading.{reading_of_counted, MayTellCountedFrom};

    type Brought = ConsecutiveEvents;

    ghost witness = { Counted };

    ghost reading = { λ r. reading_of_counted r };

    ghost tells = { λ _ brought own. own ≡ consecutive_list brought };

    ghost may = { λ r brought from. MayTellCountedFrom r brought from };

    ghost nothing = { λ told. consecutive_list told ≡ [] };

    fn start(system: System, profile: Profile) -> CountedReader {
        CountedReader::new(system, profile)
    }

    fn step(&mut self, x: u32) -> ConsecutiveEvents {
        let told = self.feed(x);
        let _within = self.told_until();
        told
    }

    fn is_nothing(brought: &ConsecutiveEvents) -> bool {
        let events = &brought.events;
        match (brought.held, events.first, events.second, events.third) {
            (None, None, None, None) => true,
            _ => false,
        }
    }

    fn told(&self, brought: ConsecutiveEvents) -> ConsecutiveEvents {
        brought
    }

    fn last(&self) -> ConsecutiveEvents {
        self.finish()
    }

    fn until(&self) -> u64 {
        self.told_until()
    }

    fn intervals(&self) -> u64 {
        self.intervals()
    }

    fn ticks(&self) -> u64 {
        self.tick()
    }

    fn what_it_has_told() {
        a_reader_has_told_what_counts_in_its_list();
    }
}
