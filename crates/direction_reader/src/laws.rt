//! What follows from the definitions alone, and the numbers that code and definitions share.
ghost use Rattle.std.specs.Prelude.{◌≡◌, ℕ, ◌*◌, ◌^◌, ◌<◌, ◌≤◌, List, [], ◌∷◌, ◌++◌, reverse, false, true, drop, take};
ghost use Rattle.std.specs.Prelude.{map, sum, All};
ghost use Rattle.biphase.specs.declared.cell.Cell.{Cell};
ghost use Rattle.biphase.specs.Chain.{bits, flat, FollowOn, IsChain};
ghost use Rattle.biphase.specs.declared.profile.Profile.{Profile};
ghost use Rattle.biphase.specs.declared.profile.Profile.TheVariants.{Normal, Worn, Rough};
ghost use Rattle.cell_tracker.specs.Lock.{IsLock};
ghost use Rattle.cell_tracker.specs.Recording.{recording};
ghost use Rattle.direction_reader.specs.declared.boundaries.TheConstants.{BOUNDARIES};
ghost use Rattle.direction_reader.specs.declared.event.Event.{Event};
ghost use Rattle.direction_reader.specs.declared.event.Event.TheVariants.{Word, Refused, Lost};
ghost use Rattle.direction_reader.specs.declared.event.Events.{Events};
ghost use Rattle.limits.specs.declared.recording.TheConstants.{MAX_INTERVALS};
ghost use Rattle.direction_reader.specs.declared.window.TheConstants.{WINDOW_BITS};
ghost use Rattle.direction_reader.specs.Brings.{greatest_cell};
ghost use Rattle.direction_reader.specs.Candidate.{AreEventsOf};
ghost use Rattle.direction_reader.specs.Events.{tick_of};
ghost use Rattle.direction_reader.specs.Firm.{DoNotFall};
ghost use Rattle.direction_reader.specs.Hissy.{hissy_cells};
ghost use Rattle.direction_reader.specs.Mirror.{MirrorsTheTape};
ghost use Rattle.direction_reader.specs.Gathered.{AreEventsOfWindows, AreGathered};
ghost use Rattle.direction_reader.specs.Windows.{windows};
ghost use Rattle.direction_reader.specs.ListEvents.{duration, events_of_cells, AreEvents};
ghost use Rattle.direction_reader.specs.Played.{Played, AreSpelled, bits_of_words, events_of_words};
ghost use Rattle.direction_reader.specs.Reader.{ReaderState};
ghost use Rattle.direction_reader.specs.StandsFor.{StandsFor};
ghost use Rattle.direction_reader.specs.Tape.{ComesBehind, TellsTheTape, FindsTheTape, FindsTheTapeBehindOnes};
ghost use Rattle.direction_reader.specs.Tracker.{profile_of};
ghost use Rattle.ltc_word.specs.Spelling.{word_with};
ghost use Rattle.tc_bits.specs.Fields.{flags};
ghost use Rattle.tc_address.specs.declared.count.Count.TheVariants.{C25};
ghost use Rattle.tc_address.specs.declared.direction.Direction.TheVariants.{Forward, Backward};
ghost use Rattle.tc_address.specs.declared.system.System.{System};
ghost use Rattle.tc_address.specs.declared.system.System.TheVariants.{F25};
ghost use Rattle.tc_bits.specs.declared.fault.FieldFault.TheVariants.{FrameUnits};

use biphase::laws::kinds_are_as_the_cells_say;
use cell_tracker::laws::{
    a_list_has_one_list_of_stretches, a_mirrored_recording_has_the_mirrored_cells,
    a_recording_is_found_again_behind_anything, a_recording_is_found_again_behind_even_ones,
    a_recording_within_the_tolerance_is_one_stretch, small_recordings_have_these_stretches,
    stretches_go_on,
};
use ltc_word::laws::{
    bits_in_sync_spell_a_word_or_have_a_fault, each_word_has_its_spelling,
    reversed_twice_is_the_same, spelling_is_exact, twelve_ones_are_the_sync_word,
    what_stands_in_bits_is_what_they_spell, words_of_round_labels,
};

/// A reader takes a thousand million intervals, a window has 80 bits and 81 boundaries, and its
/// greatest length in ticks is that of 160 intervals of 24 bits.
pub fn the_limits_are_these()
    ensures intervals { MAX_INTERVALS ≡ 1000000000 }
    ensures bits { WINDOW_BITS ≡ 80 }
    ensures boundaries { BOUNDARIES ≡ 81 }
    ensures length { 80 * greatest_cell ≡ 2684354400 }
{}

/// A window, at its tick and with its length, has the events that it has, and no others.
pub fn a_window_has_one_list_of_events()
    ensures { (system : System) (bits end length : ℕ) (events others : Events)
        → AreEventsOf system bits end length events
        → AreEventsOf system bits end length others → events ≡ others }
{
    spelling_is_exact();
}

/// Each window of 80 bits has events.
pub fn each_window_has_events()
    ensures { (system : System) (bits end length : ℕ) → bits < 2 ^ 80
        → (events : Events) × AreEventsOf system bits end length events }
{
    bits_in_sync_spell_a_word_or_have_a_fault();
    reversed_twice_is_the_same();
}

/// The events that are gathered, each word one that its bits spell, are those of the list, in which each
/// word is the one that is in its bits.
pub fn events_are_those_that_are_spelled()
    ensures cells { (system : System) (tick : ℕ) (cells : List Cell) (events : List Event)
        → AreEventsOfWindows system (windows tick cells) events → events ≡ events_of_cells system tick cells }
    ensures gathered { (system : System) (profile : Profile) (intervals : List ℕ) (events : List Event)
        → AreEvents system profile intervals events → AreGathered system profile intervals events }
    ensures listed { (system : System) (profile : Profile) (intervals : List ℕ) (events : List Event)
        → AreGathered system profile intervals events → AreEvents system profile intervals events }
{
    what_stands_in_bits_is_what_they_spell();
    bits_in_sync_spell_a_word_or_have_a_fault();
    reversed_twice_is_the_same();
}

/// Each list of intervals has events.
pub fn each_list_has_events()
    ensures { (system : System) (profile : Profile) (intervals : List ℕ)
        → (events : List Event) × AreEvents system profile intervals events }
{
    a_list_has_one_list_of_stretches();
}

/// A list of intervals has the events that it has, and no others.
pub fn a_list_has_one_list_of_events()
    ensures { (system : System) (profile : Profile) (intervals : List ℕ)
        (events others : List Event) → AreEvents system profile intervals events
        → AreEvents system profile intervals others → events ≡ others }
{
    a_list_has_one_list_of_stretches();
}

/// If more intervals follow, the events that were there come first. Those that follow come behind the
/// first intervals: words end after them, and breaks come behind the last of them.
pub fn events_of_a_front_come_first()
    ensures first { (system : System) (profile : Profile) (front more : List ℕ)
        (events all : List Event) → AreEvents system profile front events
        → AreEvents system profile (front ++ more) all
        → (rest : List Event) × (all ≡ events ++ rest) }
    ensures later { (system : System) (profile : Profile) (front more : List ℕ)
        (events rest : List Event) → AreEvents system profile front events
        → AreEvents system profile (front ++ more) (events ++ rest)
        → All (λ event. sum front ≤ tick_of event) rest }
    ensures behind { (system : System) (profile : Profile) (front more : List ℕ)
        (events rest : List Event) → AreEvents system profile front events
        → AreEvents system profile (front ++ more) (events ++ rest) → All (ComesBehind front) rest }
{
    events_are_those_that_are_spelled();
    spelling_is_exact();
    stretches_go_on();
}

/// The ticks of the events of a list do not fall, and none lies behind the sum of the intervals.
pub fn events_come_in_order()
    ensures { (system : System) (profile : Profile) (intervals : List ℕ) (events : List Event)
        → AreEvents system profile intervals events → DoNotFall 0 (map tick_of events) (sum intervals) }
{}

/// What a reader stands for are the events of its intervals.
pub fn a_reader_gives_the_events_of_its_list()
    ensures { (reader : ReaderState) (intervals : List ℕ) (events : List Event)
        → StandsFor reader intervals events
        → AreEvents reader.system (profile_of reader.tracker) intervals events }
{
    events_are_those_that_are_spelled();
}

/// Truth of the reading: the events of a recording within the tolerance are those of the tape's own
/// windows from the first unequal pair on, and none of them is a break.
pub fn events_tell_the_tape()
    ensures { (system : System) (profile : Profile) (intervals : List ℕ) (events : List Event)
        → AreEvents system profile intervals events
        → TellsTheTape system profile intervals events }
{
    events_are_those_that_are_spelled();
    a_list_has_one_list_of_stretches();
    a_recording_within_the_tolerance_is_one_stretch();
}

/// Resynchronisation, if a cell is compared with the one before it alone: whatever comes before
/// and behind a part of a recording that keeps the tolerance, from the greater interval of its second
/// unequal pair to its end the events are those of the tape's own windows.
pub fn events_find_the_tape_again()
    ensures { (system : System) (profile : Profile) (intervals : List ℕ) (events : List Event)
        → AreEvents system profile intervals events
        → FindsTheTape system profile intervals events }
{
    a_recording_is_found_again_behind_anything();
    each_list_has_events();
    events_are_those_that_are_spelled();
    events_of_a_front_come_first();
}

/// Resynchronisation under the rough tolerance: whatever comes before and behind a part of a recording
/// within it that has even ones between two zeros, as a sync word has, from the next unequal pair behind
/// them to its end the events are those of the tape's own windows.
pub fn events_find_the_tape_behind_even_ones()
    ensures { (system : System) (profile : Profile) (intervals : List ℕ) (events : List Event)
        → AreEvents system profile intervals events
        → FindsTheTapeBehindOnes system profile intervals events }
{
    a_recording_is_found_again_behind_even_ones();
    each_list_has_events();
    events_are_those_that_are_spelled();
    events_of_a_front_come_first();
}

/// Mirror: the events of a recording and of its intervals in the other order of time, both within the
/// tolerance, are the same words between the greater intervals of the first and of the last unequal pair,
/// each met from its other end.
pub fn events_mirror_the_tape()
    ensures { (system : System) (profile : Profile) (intervals : List ℕ)
        (events mirrored : List Event) → AreEvents system profile intervals events
        → AreEvents system profile (reverse intervals) mirrored
        → MirrorsTheTape system profile intervals events mirrored }
{
    events_are_those_that_are_spelled();
    spelling_is_exact();
    reversed_twice_is_the_same();
    a_list_has_one_list_of_stretches();
    a_recording_within_the_tolerance_is_one_stretch();
    a_mirrored_recording_has_the_mirrored_cells();
}

/// What a reader stands for tells the tape, finds it again behind damage, and mirrors it.
pub fn a_reader_tells_the_tape()
    ensures truth { (reader : ReaderState) (intervals : List ℕ) (events : List Event)
        → StandsFor reader intervals events
        → TellsTheTape reader.system (profile_of reader.tracker) intervals events }
    ensures damage { (reader : ReaderState) (intervals : List ℕ) (events : List Event)
        → StandsFor reader intervals events
        → FindsTheTape reader.system (profile_of reader.tracker) intervals events }
    ensures mirror { (reader : ReaderState) (intervals : List ℕ) (events mirrored : List Event)
        → StandsFor reader intervals events
        → AreEvents reader.system (profile_of reader.tracker) (reverse intervals) mirrored
        → MirrorsTheTape reader.system (profile_of reader.tracker) intervals events mirrored }
{
    a_reader_gives_the_events_of_its_list();
    events_tell_the_tape();
    events_find_the_tape_again();
    events_mirror_the_tape();
}

/// Recordings of 24 ticks a cell: the word of 00:00:00:00 at 25 frames behind a zero and a one,
/// alone, with a break behind it and with a half; this word from its end, behind a zero; 80 bits
/// that begin and end in the sync word; a stretch that breaks, and one that begins there.
pub fn small_recordings_have_these_events()
    ensures forward { AreEvents F25 Normal (recording 82 0x2fff02000000000000002)
        (Word Forward (word_with C25 0 0 0 0 (flags false false false false false) 0 true) 1968 1920 ∷ []) }
    ensures broken { AreEvents F25 Normal (recording 82 0x2fff02000000000000002 ++ 5 ∷ [])
        (Word Forward (word_with C25 0 0 0 0 (flags false false false false false) 0 true) 1968 1920
        ∷ Lost 97 1973 ∷ []) }
    ensures half { AreEvents F25 Normal (recording 82 0x2fff02000000000000002 ++ 12 ∷ [])
        (Word Forward (word_with C25 0 0 0 0 (flags false false false false false) 0 true) 1968 1920 ∷ []) }
    ensures backward { AreEvents F25 Normal (recording 81 0x207ffa)
        (Word Backward (word_with C25 0 0 0 0 (flags false false false false false) 0 true) 1944 1920 ∷ []) }
    ensures both { AreEvents F25 Normal (recording 81 0x17ff80000000000007ffa)
        (Refused Forward FrameUnits 1944 ∷ Refused Backward FrameUnits 1944 ∷ []) }
    ensures two { AreEvents F25 Normal (24 ∷ 12 ∷ 24 ∷ 12 ∷ 12 ∷ []) (Lost 2 60 ∷ []) }
{
    events_are_those_that_are_spelled();
    small_recordings_have_these_stretches();
    words_of_round_labels();
}

/// If a chain begins with the bits 0 and 1, and then has the bits of words that are played one after
/// another, in any directions, each of the words is read, and nothing else: no word is refused, and no
/// code is lost.
pub fn played_words_are_read()
    ensures { (system : System) (profile : Profile) (cells : List Cell) (words : List Played)
        → IsChain profile cells → bits cells ≡ false ∷ true ∷ bits_of_words words → AreSpelled system words
        → AreEvents system profile (flat cells) (events_of_words (duration (take 2 cells)) (drop 2 cells) words) }
{
    events_are_those_that_are_spelled();
    kinds_are_as_the_cells_say();
    reversed_twice_is_the_same();
    twelve_ones_are_the_sync_word();
}

/// The same of cells that follow one another from a lock at the first of them. That a reader could lock at
/// other places of the chain too is not required.
pub fn words_behind_a_lock_are_read()
    ensures { (system : System) (profile : Profile) (cells : List Cell) (words : List Played)
        → FollowOn profile cells → IsLock profile (flat cells) 0 0
        → bits cells ≡ false ∷ true ∷ bits_of_words words → AreSpelled system words
        → AreEvents system profile (flat cells) (events_of_words (duration (take 2 cells)) (drop 2 cells) words) }
{
    events_are_those_that_are_spelled();
    reversed_twice_is_the_same();
    twelve_ones_are_the_sync_word();
}

/// A word in cells of 90 and 112 ticks, which take turns, keeps the rough tolerance and neither other,
/// and is read by it.
pub fn a_hissy_word_is_read_by_the_rough_tolerance_alone()
    ensures rough { IsChain Rough hissy_cells }
    ensures normal { ¬ IsChain Normal hissy_cells }
    ensures worn { ¬ IsChain Worn hissy_cells }
    ensures events { AreEvents F25 Rough (flat hissy_cells)
        (Word Forward (word_with C25 0 0 0 0 (flags false false false false false) 0 true) 8282 8080 ∷ []) }
{
    words_of_round_labels();
    each_word_has_its_spelling();
    spelling_is_exact();
    played_words_are_read();
}
