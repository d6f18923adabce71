//! What follows from the definition of a witness alone.
ghost use Rattle.std.specs.Prelude.{◌≡◌, ℕ, ◌<◌, ◌+◌, ◌*◌, ◌^◌, List, [], ◌∷◌, ◌++◌, true, false};
ghost use Rattle.std.specs.Prelude.{All, length, map, reverse, sum, take, drop};
ghost use Rattle.std.specs.List.{AllZip, flat_map, range_with_len};
ghost use Rattle.biphase.specs.declared.cell.Cell.{Cell};
ghost use Rattle.biphase.specs.declared.profile.Profile.{Profile};
ghost use Rattle.biphase.specs.Chain.{bits, flat, IsChain};
ghost use Rattle.cell_tracker.specs.Recording.{cells_of};
ghost use Rattle.direction_reader.specs.declared.event.Event.{Event};
ghost use Rattle.direction_reader.specs.declared.firm_event.FirmEvent.{FirmEvent};
ghost use Rattle.direction_reader.specs.declared.firm_event.FirmEvent.TheVariants.{Told, Alone};
ghost use Rattle.direction_reader.specs.Firm.{AreFirmEvents, candidate_at, firm_candidate_at, firm_events_of_cells};
ghost use Rattle.direction_reader.specs.Firm.{firm_events_at, is_firm, sync_in_time};
ghost use Rattle.direction_reader.specs.FirmKnown.{known_of_cells, told_of, told_to};
ghost use Rattle.direction_reader.specs.FirmReader.{FirmState, FirmStandsFor, told_until};
ghost use Rattle.direction_reader.specs.FirmTold.{AreTold, ComesFirst, IsWaiting, end_of_window};
ghost use Rattle.direction_reader.specs.Tracker.{profile_of};
ghost use Rattle.direction_reader.specs.FirmTape.{AreOneWay, AreWitnessed, FirmTellsTheTape, HasWitness, IsJudged};
ghost use Rattle.direction_reader.specs.FirmTape.{IsTold};
ghost use Rattle.direction_reader.specs.ListEvents.{AreEvents, duration};
ghost use Rattle.direction_reader.specs.Played.{Played, AreSpelled, bits_of_words, events_of_words, low_bits};
ghost use Rattle.ltc_word.specs.Reading.{word_in};
ghost use Rattle.tc_address.specs.declared.direction.Direction.{Direction};
ghost use Rattle.tc_address.specs.declared.direction.Direction.TheVariants.{Forward, Backward};
ghost use Rattle.tc_address.specs.declared.system.System.{System};
ghost use Rattle.tc_address.specs.declared.system.System.TheVariants.{F25};

use crate::laws::{
    each_list_has_events, events_are_those_that_are_spelled, events_come_in_order,
    events_of_a_front_come_first,
};
use biphase::laws::kinds_are_as_the_cells_say;
use cell_tracker::laws::{
    a_list_has_one_list_of_stretches, a_recording_within_the_tolerance_is_one_stretch,
    stretches_go_on,
};
use ltc_word::laws::{reversed_twice_is_the_same, twelve_ones_are_the_sync_word};

/// The sync word of either direction is that of the other from its end.
pub fn the_sync_words_are_each_others_reverse()
    ensures forward { sync_in_time Forward ≡ 0xbffc }
    ensures backward { low_bits 16 (sync_in_time Backward) ≡ reverse (low_bits 16 (sync_in_time Forward)) }
{}

/// A list of intervals has one list of events under witnesses, however it is cut.
pub fn a_list_has_one_list_of_firm_events()
    ensures some { (system : System) (profile : Profile) (intervals : List ℕ)
        → (events : List FirmEvent) × AreFirmEvents system profile intervals events }
    ensures one { (system : System) (profile : Profile) (intervals : List ℕ) (events others : List FirmEvent)
        → AreFirmEvents system profile intervals events
        → AreFirmEvents system profile intervals others → events ≡ others }
{
    a_list_has_one_list_of_stretches();
}

/// A reading that needs witnesses has an event for each event of one that needs none, in the same
/// order: a word without a witness is alone, and all else is the same. So what is true of the one, of
/// damage and of the mirror, is true of the other, but for words that are refused.
pub fn a_witness_changes_words_alone()
    ensures { (system : System) (profile : Profile) (intervals : List ℕ) (events : List Event)
        (told : List FirmEvent) → AreEvents system profile intervals events
        → AreFirmEvents system profile intervals told → AllZip IsJudged events told }
{
    a_list_has_one_list_of_stretches();
}

/// Each `Told` word among the events of a stretch's cells has its witness, or is at the edge; and so has each
/// `Told` word among those of a list of intervals.
pub fn each_word_that_is_told_has_its_witness()
    ensures cells { (system : System) (tick : ℕ) (cells : List Cell)
        → All (HasWitness tick cells) (firm_events_of_cells system tick cells) }
    ensures list { (system : System) (profile : Profile) (intervals : List ℕ) (events : List FirmEvent)
        → AreFirmEvents system profile intervals events → AreWitnessed system profile intervals events }
{}

/// A candidate that comes beside another word's sync word, or at the edge of its stretch, is `Told`, as it
/// is read without witnesses. A word that is played forward is at the edge if fewer than 16
/// cells come before it, and one that is played backward if fewer than 16 come behind it.
pub fn a_word_beside_another_is_told()
    ensures told { (system : System) (tick k : ℕ) (cells : List Cell) (direction : Direction)
        → is_firm direction cells k ≡ true
        → firm_candidate_at system tick cells k direction
        ≡ map (λ event. Told event) (candidate_at system tick cells k direction) }
    ensures first { (cells : List Cell) (k : ℕ) → k < 16 → is_firm Forward cells k ≡ true }
    ensures last { (cells : List Cell) (k : ℕ) → length cells < k + 96 → is_firm Backward cells k ≡ true }
{}

/// If a chain begins with the bits 0 and 1, and then has the bits of words that are played one after
/// another in one direction, a witness changes nothing: each of the words is `Told`, and nothing else comes.
/// (Where the tape turns, the word at the turn has another word's data beside it, and is alone.)
pub fn words_that_are_played_one_way_are_told()
    ensures { (system : System) (profile : Profile) (direction : Direction) (cells : List Cell)
        (words : List Played) → IsChain profile cells → bits cells ≡ false ∷ true ∷ bits_of_words words
        → AreSpelled system words → AreOneWay direction words
        → AreFirmEvents system profile (flat cells)
        (map (λ event. Told event) (events_of_words (duration (take 2 cells)) (drop 2 cells) words)) }
{
    events_are_those_that_are_spelled();
    kinds_are_as_the_cells_say();
    reversed_twice_is_the_same();
    twelve_ones_are_the_sync_word();
}

/// Truth of the reading: the events of a recording within the tolerance are those of the tape's own
/// windows from the first unequal pair on.
pub fn firm_events_tell_the_tape()
    ensures { (system : System) (profile : Profile) (intervals : List ℕ) (events : List FirmEvent)
        → AreFirmEvents system profile intervals events
        → FirmTellsTheTape system profile intervals events }
{
    a_list_has_one_list_of_stretches();
    a_recording_within_the_tolerance_is_one_stretch();
}

/// What a reader has given is what its list gives while more may follow.
pub fn a_reader_has_told_what_no_further_interval_changes()
    ensures { (reader : FirmState) (intervals : List ℕ) (told : List FirmEvent)
        → FirmStandsFor reader intervals told
        → AreTold reader.reader.system (profile_of reader.reader.tracker) intervals told (told_until reader) }
{}

/// A list of intervals has one list of events that are given while more may follow, up to one tick: at most
/// one word waits.
pub fn a_list_has_one_list_of_told_events()
    ensures some { (system : System) (profile : Profile) (intervals : List ℕ)
        → (told : List FirmEvent) × (until : ℕ) × AreTold system profile intervals told until }
    ensures one { (system : System) (profile : Profile) (intervals : List ℕ) (told others : List FirmEvent)
        (until another : ℕ) → AreTold system profile intervals told until
        → AreTold system profile intervals others another → (told ≡ others) × (until ≡ another) }
{
    a_list_has_one_list_of_stretches();
}

/// If more intervals follow, what was given comes first, and all else ends at the tick up to which it was
/// given, or later.
pub fn told_events_come_first()
    ensures all { (system : System) (profile : Profile) (front more : List ℕ) (told events : List FirmEvent)
        (until : ℕ) → AreTold system profile front told until → AreFirmEvents system profile (front ++ more) events
        → ComesFirst told until events (sum (front ++ more)) }
    ensures more { (system : System) (profile : Profile) (front more : List ℕ) (told later : List FirmEvent)
        (until now : ℕ) → AreTold system profile front told until
        → AreTold system profile (front ++ more) later now → ComesFirst told until later now }
{
    a_list_has_one_list_of_stretches();
    stretches_go_on();
    each_list_has_events();
    events_come_in_order();
    events_of_a_front_come_first();
}

/// The word of 00:00:00:00 at 25 frames, in cells of 24 ticks. It is alone behind 16 zeros, and played
/// backward before 16 zeros; and 64 bits between a sync word that is played backward and one that is
/// played forward are two words, each of them alone.
pub fn some_words_are_alone()
    ensures forward { firm_events_of_cells F25 0 (cells_of 96 (0xbffc0800000000000000 * 2 ^ 16))
        ≡ Alone Forward (word_in F25 0xbffc0800000000000000) 2304 1920 ∷ [] }
    ensures backward { firm_events_of_cells F25 0 (cells_of 96 0x103ffd)
        ≡ Alone Backward (word_in F25 0xbffc0800000000000000) 1920 1920 ∷ [] }
    ensures turned { firm_events_of_cells F25 0 (cells_of 96 (0xbffc0800000000000000 * 2 ^ 16 + 0x3ffd))
        ≡ Alone Backward (word_in F25 0xbffc0000000000000010) 1920 1920
        ∷ Alone Forward (word_in F25 0xbffc0800000000000000) 2304 1920 ∷ [] }
{}

/// Of the cells of a stretch that goes on all events are told, up to whatever tick, if no word waits; and if one
/// waits, all that comes before it is told, up to the tick at its end. At most one waits.
pub fn what_comes_before_a_word_that_waits_is_told()
    ensures all { (system : System) (tick now : ℕ) (cells : List Cell)
        → ((k : ℕ) → ¬ IsWaiting system tick cells k)
        → (told_of (known_of_cells true system tick cells) ≡ firm_events_of_cells system tick cells)
        × (told_to now (known_of_cells true system tick cells) ≡ now) }
    ensures before { (system : System) (tick now : ℕ) (cells : List Cell) (k : ℕ) → IsWaiting system tick cells k
        → (told_of (known_of_cells true system tick cells)
        ≡ flat_map (firm_events_at system tick cells) (range_with_len 0 k)
        ++ firm_candidate_at system tick cells k Forward)
        × (told_to now (known_of_cells true system tick cells) ≡ end_of_window tick cells k) }
{
    reversed_twice_is_the_same();
    twelve_ones_are_the_sync_word();
}

/// Played backward, the same word waits before 15 zeros, of a stretch that goes on, and all is told up to its
/// tick; before 16 zeros it is told, up to whatever tick.
pub fn a_word_waits_for_sixteen_cells()
    ensures fifteen { told_of (known_of_cells true F25 0 (cells_of 95 0x103ffd)) ≡ [] }
    ensures its_tick { told_to 2280 (known_of_cells true F25 0 (cells_of 95 0x103ffd)) ≡ 1920 }
    ensures sixteen { told_of (known_of_cells true F25 0 (cells_of 96 0x103ffd))
        ≡ Alone Backward (word_in F25 0xbffc0800000000000000) 1920 1920 ∷ [] }
    ensures any_tick { told_to 2304 (known_of_cells true F25 0 (cells_of 96 0x103ffd)) ≡ 2304 }
{}

/// The same word is `Told` behind 15 zeros, and behind a sync word; and played backward, before 15 zeros
/// and before a sync word in its direction. `IsTold` says it of cells that have one event.
pub fn other_words_are_told()
    ensures first { IsTold F25 (cells_of 95 (0xbffc0800000000000000 * 2 ^ 15)) }
    ensures behind { IsTold F25 (cells_of 96 (0xbffc0800000000000000 * 2 ^ 16 + 0xbffc)) }
    ensures last { IsTold F25 (cells_of 95 0x103ffd) }
    ensures before { IsTold F25 (cells_of 96 (0x3ffd * 2 ^ 80 + 0x103ffd)) }
{}
