//! What follows from the definition of consecutive words alone.
ghost use Rattle.std.specs.Prelude.{◌≡◌, ℕ, List, [], ◌∷◌, ◌++◌, false, true, map, sum, take, drop};
ghost use Rattle.std.specs.List.{AllZip};
ghost use Rattle.biphase.specs.declared.cell.Cell.{Cell};
ghost use Rattle.biphase.specs.declared.profile.Profile.{Profile};
ghost use Rattle.biphase.specs.Chain.{bits, flat, IsChain};
ghost use Rattle.direction_reader.specs.declared.event.Event.{Event};
ghost use Rattle.direction_reader.specs.declared.firm_event.FirmEvent.{FirmEvent};
ghost use Rattle.direction_reader.specs.declared.firm_event.FirmEvent.TheVariants.{Told};
ghost use Rattle.direction_reader.specs.Consecutive.{AreConsecutiveEvents};
ghost use Rattle.direction_reader.specs.ConsecutiveStep.{consecutive_until, ConsecutiveStandsFor, ConsecutiveState};
ghost use Rattle.direction_reader.specs.ConsecutiveTape.{AreBacked, ConsecutiveTellsTheTape, IsSameOrTold};
ghost use Rattle.direction_reader.specs.ConsecutiveTold.{AreConsecutiveTold};
ghost use Rattle.direction_reader.specs.Firm.{AreFirmEvents};
ghost use Rattle.direction_reader.specs.FirmTape.{AreOneWay, IsJudged};
ghost use Rattle.direction_reader.specs.FirmTold.{ComesFirst};
ghost use Rattle.direction_reader.specs.ListEvents.{AreEvents, duration};
ghost use Rattle.direction_reader.specs.Played.{Played, AreSpelled, bits_of_words, events_of_words};
ghost use Rattle.direction_reader.specs.Tracker.{profile_of};
ghost use Rattle.tc_address.specs.declared.direction.Direction.{Direction};
ghost use Rattle.tc_address.specs.declared.system.System.{System};

use crate::firm_laws::{
    a_list_has_one_list_of_firm_events, a_list_has_one_list_of_told_events,
    a_reader_has_told_what_no_further_interval_changes, a_witness_changes_words_alone,
    each_word_that_is_told_has_its_witness, firm_events_tell_the_tape, told_events_come_first,
    words_that_are_played_one_way_are_told,
};
use crate::laws::{each_list_has_events, events_come_in_order};
use cell_tracker::laws::a_list_has_one_list_of_stretches;

/// A list of intervals has one list of consecutive events, however it is cut.
pub fn a_list_has_one_list_of_consecutive_events()
    ensures some { (system : System) (profile : Profile) (intervals : List ℕ)
        → (events : List FirmEvent) × AreConsecutiveEvents system profile intervals events }
    ensures one { (system : System) (profile : Profile) (intervals : List ℕ) (events others : List FirmEvent)
        → AreConsecutiveEvents system profile intervals events
        → AreConsecutiveEvents system profile intervals others → events ≡ others }
{
    a_list_has_one_list_of_firm_events();
}

/// Such a reading has an event for each event of one that needs witnesses, in the same order: some words that
/// are alone there are told here, and all else is the same. So it also has one for each event of a reading
/// that needs none, and differs from it in words that are alone.
pub fn the_next_word_changes_words_alone()
    ensures firm { (system : System) (profile : Profile) (intervals : List ℕ) (firm events : List FirmEvent)
        → AreFirmEvents system profile intervals firm → AreConsecutiveEvents system profile intervals events
        → AllZip IsSameOrTold firm events }
    ensures plain { (system : System) (profile : Profile) (intervals : List ℕ) (plain : List Event)
        (events : List FirmEvent) → AreEvents system profile intervals plain
        → AreConsecutiveEvents system profile intervals events → AllZip IsJudged plain events }
{
    a_list_has_one_list_of_firm_events();
    a_witness_changes_words_alone();
}

/// Each `Told` word among such events has its witness, or is at the edge of its stretch, or the word that
/// follows it on the tape is beside it and joins it.
pub fn each_word_has_its_witness_or_its_next_word()
    ensures { (system : System) (profile : Profile) (intervals : List ℕ) (events : List FirmEvent)
        → AreConsecutiveEvents system profile intervals events → AreBacked system profile intervals events }
{
    each_word_that_is_told_has_its_witness();
}

/// If a chain begins with the bits 0 and 1, and then has the bits of words that are played one after
/// another in one direction, each of the words is `Told`, and nothing else comes.
pub fn words_that_are_played_one_way_stay_told()
    ensures { (system : System) (profile : Profile) (direction : Direction) (cells : List Cell)
        (words : List Played) → IsChain profile cells → bits cells ≡ false ∷ true ∷ bits_of_words words
        → AreSpelled system words → AreOneWay direction words
        → AreConsecutiveEvents system profile (flat cells)
        (map (λ event. Told event) (events_of_words (duration (take 2 cells)) (drop 2 cells) words)) }
{
    words_that_are_played_one_way_are_told();
}

/// Truth of the reading: the events of a recording within the tolerance are what becomes of those of the
/// tape's own windows from the first unequal pair on.
pub fn consecutive_events_tell_the_tape()
    ensures { (system : System) (profile : Profile) (intervals : List ℕ) (events : List FirmEvent)
        → AreConsecutiveEvents system profile intervals events
        → ConsecutiveTellsTheTape system profile intervals events }
{
    firm_events_tell_the_tape();
}

/// What a reader has given is what its list gives while more may follow.
pub fn a_reader_has_told_what_its_list_tells()
    ensures { (reader : ConsecutiveState) (intervals : List ℕ) (told : List FirmEvent)
        → ConsecutiveStandsFor reader intervals told
        → AreConsecutiveTold reader.reader.reader.system (profile_of reader.reader.reader.tracker) intervals told
        (consecutive_until reader) }
{
    a_reader_has_told_what_no_further_interval_changes();
}

/// A list of intervals has one list of events that are given while more may follow, up to one tick: one word
/// is held at most.
pub fn a_list_has_one_list_of_consecutive_told()
    ensures some { (system : System) (profile : Profile) (intervals : List ℕ)
        → (told : List FirmEvent) × (until : ℕ) × AreConsecutiveTold system profile intervals told until }
    ensures one { (system : System) (profile : Profile) (intervals : List ℕ) (told others : List FirmEvent)
        (until another : ℕ) → AreConsecutiveTold system profile intervals told until
        → AreConsecutiveTold system profile intervals others another → (told ≡ others) × (until ≡ another) }
{
    a_list_has_one_list_of_told_events();
}

/// If more intervals follow, what was given comes first, and all else ends at the tick up to which it was
/// given, or later.
pub fn consecutive_told_come_first()
    ensures all { (system : System) (profile : Profile) (front more : List ℕ) (told events : List FirmEvent)
        (until : ℕ) → AreConsecutiveTold system profile front told until
        → AreConsecutiveEvents system profile (front ++ more) events
        → ComesFirst told until events (sum (front ++ more)) }
    ensures more { (system : System) (profile : Profile) (front more : List ℕ) (told later : List FirmEvent)
        (until now : ℕ) → AreConsecutiveTold system profile front told until
        → AreConsecutiveTold system profile (front ++ more) later now → ComesFirst told until later now }
{
    told_events_come_first();
    events_come_in_order();
    each_list_has_events();
    a_list_has_one_list_of_stretches();
}
