//! A reader of a tape. Read next: `reading_on`, and of the readers that it has `direction_reader/src/reader.rt`,
//! `direction_reader/src/firm_reader.rt`, `direction_reader/src/consecutive.rt` and `direction_reader/src/counted.rt`.
ghost use Rattle.std.specs.Prelude.{◌≡◌, ℕ, ◌≤◌, List, [], ◌++◌, length, take, drop, sum, false};
ghost use Rattle.direction_reader.specs.declared.firm_event.FirmEvent.{FirmEvent};
ghost use Rattle.direction_reader.specs.ConsecutiveStep.{consecutive_list};
ghost use Rattle.direction_reader.specs.FirmTold.{ComesFirst};
ghost use Rattle.direction_reader.specs.Reading.{most_told};
ghost use Rattle.tape_reader.specs.Tape.{begins_with_none, is_full, nothing_brought, settings_of, told_until};
ghost use Rattle.tape_reader.specs.Tape.{witness_of, AreTapeEvents, AreTapeTold, Brings, NoneButTheLatestTells};
ghost use Rattle.tape_reader.specs.Tape.{StandsFor};

use crate::laws::what_is_told_of_a_tape_comes_first;
use crate::reading_on::read_on;
use crate::settings::TapeSettings;
use direction_reader::{
    ConsecutiveEvents, ConsecutiveReader, CountedReader, DirectionReader, FirmReader, Reading,
    Witness,
};
use limits::MAX_INTERVALS;

/// Reads the words of a tape, in either direction, some intervals at a time.
#[derive(Drop)]
pub enum TapeReader {
    /// Each word is told.
    Plain(DirectionReader),
    /// A word is told where it has a witness, and as alone where it has none.
    Firm(FirmReader),
    /// A word is told where it has a witness too, or where the word that follows it on the tape joins it.
    Joined(ConsecutiveReader),
    /// A word is told where another one counts on with it, and as alone where none does.
    Counting(CountedReader),
}

impl TapeReader {
    /// Before the first interval.
    pub fn new(settings: TapeSettings) -> TapeReader
        ensures settings { settings_of result ≡ settings }
        ensures stands { StandsFor result [] [] }
        ensures room { is_full result ≡ false }
    {
        let TapeSettings {
            system,
            profile,
            witness,
        } = settings;
        match witness {
            Witness::NotAsked => TapeReader::Plain(Reading::start(system, profile)),
            Witness::Asked => TapeReader::Firm(Reading::start(system, profile)),
            Witness::Consecutive => TapeReader::Joined(Reading::start(system, profile)),
            Witness::Counted => TapeReader::Counting(Reading::start(system, profile)),
        }
    }

    /// Tells whether it takes no more: it was given as many intervals as a recording may have.
    pub fn is_full(&self) -> bool
        ensures { result ≡ is_full self.now }
    {
        let count = match self {
            TapeReader::Plain(reader) => Reading::intervals(reader),
            TapeReader::Firm(reader) => Reading::intervals(reader),
            TapeReader::Joined(reader) => Reading::intervals(reader),
            TapeReader::Counting(reader) => Reading::intervals(reader),
        };
        count >= MAX_INTERVALS
    }

    /// What each word is asked for.
    pub fn witness(&self) -> Witness
        ensures { result ≡ witness_of self.now }
    {
        match self {
            TapeReader::Plain(_) => Witness::NotAsked,
            TapeReader::Firm(_) => Witness::Asked,
            TapeReader::Joined(_) => Witness::Consecutive,
            TapeReader::Counting(_) => Witness::Counted,
        }
    }

    /// Up to which tick all words are told: one that is told later ends there or behind it. Words that are not
    /// asked for a witness are told up to the sum of the intervals.
    pub fn told_until(&self) -> u64
        ensures value { result ≡ told_until self.now }
        ensures told { (intervals : List ℕ) (told : List FirmEvent) → StandsFor self.now intervals told
            → AreTapeTold (settings_of self.now) intervals told result }
        ensures later { (intervals more : List ℕ) (told events : List FirmEvent) → StandsFor self.now intervals told
            → AreTapeEvents (settings_of self.now) (intervals ++ more) events
            → ComesFirst told result events (sum (intervals ++ more)) }
    {
        what_is_told_of_a_tape_comes_first();
        match self {
            TapeReader::Plain(reader) => reader.until(),
            TapeReader::Firm(reader) => reader.until(),
            TapeReader::Joined(reader) => reader.until(),
            TapeReader::Counting(reader) => reader.until(),
        }
    }

    /// Takes intervals from the front up to the first one that brings an event, or else all of them, but
    /// none from a number on that is no interval. Gives how many these are, and what they brought.
    pub fn read(&mut self, intervals: &[u32]) -> (usize, ConsecutiveEvents)
        ensures within { result.0 ≤ length intervals.now }
        ensures settings { settings_of self.new ≡ settings_of self.old }
        ensures brings { Brings self.old self.new (take result.0 intervals.now) (consecutive_list result.1) }
        ensures most { length (consecutive_list result.1) ≤ most_told (witness_of self.old) }
        ensures latest { ¬ (result.1 ≡ nothing_brought) → NoneButTheLatestTells self.old result.0 intervals.now }
        ensures some { result.1 ≡ nothing_brought → is_full self.new ≡ false
            → begins_with_none (drop result.0 intervals.now) ≡ false → result.0 ≡ length intervals.now }
    {
        match self {
            TapeReader::Plain(reader) => read_on(reader, intervals),
            TapeReader::Firm(reader) => read_on(reader, intervals),
            TapeReader::Joined(reader) => read_on(reader, intervals),
            TapeReader::Counting(reader) => read_on(reader, intervals),
        }
    }

    /// What is told at the end of the tape, where no interval follows.
    pub fn last(&self) -> ConsecutiveEvents
        ensures all { (intervals : List ℕ) (told : List FirmEvent) → StandsFor self.now intervals told
            → AreTapeEvents (settings_of self.now) intervals (told ++ consecutive_list result) }
        ensures most { length (consecutive_list result) ≤ most_told (witness_of self.now) }
    {
        match self {
            TapeReader::Plain(reader) => reader.last(),
            TapeReader::Firm(reader) => reader.last(),
            TapeReader::Joined(reader) => reader.last(),
            TapeReader::Counting(reader) => reader.last(),
        }
    }
}
