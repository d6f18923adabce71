//! What follows from the definition of words that count alone.
ghost use Rattle.std.specs.Prelude.{◌≡◌, ℕ, List, [], ◌∷◌, ◌++◌, false, true, None, sum, take, drop};
ghost use Rattle.std.specs.List.{AllZip};
ghost use Rattle.biphase.specs.declared.cell.Cell.{Cell};
ghost use Rattle.biphase.specs.declared.profile.Profile.{Profile};
ghost use Rattle.biphase.specs.Chain.{bits, flat, IsChain};
ghost use Rattle.direction_reader.specs.declared.event.Event.{Event};
ghost use Rattle.direction_reader.specs.declared.firm_event.FirmEvent.{FirmEvent};
ghost use Rattle.direction_reader.specs.Counted.{counted, AreCountedEvents};
ghost use Rattle.direction_reader.specs.CountedStep.{counted_until, CountedStandsFor, CountedState};
ghost use Rattle.direction_reader.specs.CountedTape.{AllCountOn, CountedTellsTheTape, EachIsCounted};
ghost use Rattle.direction_reader.specs.CountedTold.{AreCountedTold};
ghost use Rattle.direction_reader.specs.FirmTape.{IsJudged};
ghost use Rattle.direction_reader.specs.FirmTold.{ComesFirst};
ghost use Rattle.direction_reader.specs.ListEvents.{AreEvents, duration};
ghost use Rattle.direction_reader.specs.Played.{Played, AreSpelled, bits_of_words, events_of_words};
ghost use Rattle.direction_reader.specs.Reading.{as_told};
ghost use Rattle.direction_reader.specs.Tracker.{profile_of};
ghost use Rattle.tc_address.specs.declared.system.System.{System};

use crate::laws::{
    a_list_has_one_list_of_events, a_reader_gives_the_events_of_its_list, each_list_has_events,
    events_come_in_order, events_of_a_front_come_first, events_tell_the_tape,
    played_words_are_read,
};

/// A list of intervals has one list of such events, however it is cut.
pub fn a_list_has_one_list_of_counted_events()
    ensures some { (system : System) (profile : Profile) (intervals : List ℕ)
        → (events : List FirmEvent) × AreCountedEvents system profile intervals events }
    ensures one { (system : System) (profile : Profile) (intervals : List ℕ) (events others : List FirmEvent)
        → AreCountedEvents system profile intervals events
        → AreCountedEvents system profile intervals others → events ≡ others }
{
    each_list_has_events();
    a_list_has_one_list_of_events();
}

/// Such a reading has an event for each event of one that needs nothing, in the same order: some words are alone, and
/// all else is the same.
pub fn counting_changes_words_alone()
    ensures { (system : System) (profile : Profile) (intervals : List ℕ) (plain : List Event)
        (events : List FirmEvent) → AreEvents system profile intervals plain
        → AreCountedEvents system profile intervals events → AllZip IsJudged plain events }
{
    a_list_has_one_list_of_events();
}

/// Each word that is told counts on from the latest word before it, told or alone, or the event that comes next is a
/// word that counts on from it.
pub fn each_word_that_is_told_counts()
    ensures { (system : System) (profile : Profile) (intervals : List ℕ) (events : List FirmEvent)
        → AreCountedEvents system profile intervals events → EachIsCounted None events }
{}

/// Of two words or more that count on none is alone. So if a chain begins with the bits 0 and 1, and then has the bits
/// of words whose events count on, each of the words is told, and nothing else comes.
pub fn words_that_count_on_are_told()
    ensures list { (events : List Event) → AllCountOn events → counted events ≡ as_told events }
    ensures played { (system : System) (profile : Profile) (cells : List Cell) (words : List Played)
        → IsChain profile cells → bits cells ≡ false ∷ true ∷ bits_of_words words → AreSpelled system words
        → AllCountOn (events_of_words (duration (take 2 cells)) (drop 2 cells) words)
        → AreCountedEvents system profile (flat cells)
        (as_told (events_of_words (duration (take 2 cells)) (drop 2 cells) words)) }
{
    played_words_are_read();
}

/// Truth of the reading: the events of a recording within the tolerance are what becomes of those of the
/// tape's own windows from the first unequal pair on.
pub fn counted_events_tell_the_tape()
    ensures { (system : System) (profile : Profile) (intervals : List ℕ) (events : List FirmEvent)
        → AreCountedEvents system profile intervals events
        → CountedTellsTheTape system profile intervals events }
{
    events_tell_the_tape();
}

/// What a reader has given is what is told of its list while more may follow.
pub fn a_reader_has_told_what_counts_in_its_list()
    ensures { (reader : CountedState) (intervals : List ℕ) (told : List FirmEvent)
        → CountedStandsFor reader intervals told
        → AreCountedTold reader.reader.system (profile_of reader.reader.tracker) intervals told
        (counted_until reader) }
{
    a_reader_gives_the_events_of_its_list();
}

/// A list of intervals has one list of events that are given while more may follow, up to one tick: one word
/// is held at most.
pub fn a_list_has_one_list_of_counted_told()
    ensures some { (system : System) (profile : Profile) (intervals : List ℕ)
        → (told : List FirmEvent) × (until : ℕ) × AreCountedTold system profile intervals told until }
    ensures one { (system : System) (profile : Profile) (intervals : List ℕ) (told others : List FirmEvent)
        (until another : ℕ) → AreCountedTold system profile intervals told until
        → AreCountedTold system profile intervals others another → (told ≡ others) × (until ≡ another) }
{
    each_list_has_events();
    a_list_has_one_list_of_events();
}

/// If more intervals follow, what was given comes first, and all else ends at the tick up to which it was
/// given, or later.
pub fn counted_told_come_first()
    ensures all { (system : System) (profile : Profile) (front more : List ℕ) (told events : List FirmEvent)
        (until : ℕ) → AreCountedTold system profile front told until
        → AreCountedEvents system profile (front ++ more) events
        → ComesFirst told until events (sum (front ++ more)) }
    ensures more { (system : System) (profile : Profile) (front more : List ℕ) (told later : List FirmEvent)
        (until now : ℕ) → AreCountedTold system profile front told until
        → AreCountedTold system profile (front ++ more) later now → ComesFirst told until later now }
{
    events_of_a_front_come_first();
    events_come_in_order();
}
