//! What follows from the definitions alone: clean recordings are read back.
ghost use Rattle.std.specs.Prelude.{◌≡◌, ◌++◌, ℕ, ℤ, List, Bool};
ghost use Rattle.std.specs.List.{flat_map};
ghost use Rattle.biphase.specs.declared.profile.Profile.{Profile};
ghost use Rattle.biphase.specs.declared.profile.Profile.TheVariants.{Normal};
ghost use Rattle.biphase.specs.Chain.{flat};
ghost use Rattle.biphase.specs.Shape.{shape_with, shaped, IsShaped};
ghost use Rattle.tc_address.specs.declared.count.Count.TheVariants.{C25, C30, Drop30};
ghost use Rattle.tc_address.specs.declared.direction.Direction.TheVariants.{Forward};
ghost use Rattle.tc_address.specs.declared.system.System.{System};
ghost use Rattle.tc_address.specs.Count.{system_with};
ghost use Rattle.tc_address.specs.Label.{Address, IsLabel, address};
ghost use Rattle.tc_address.specs.Numbering.{step};
ghost use Rattle.ltc_word.specs.Spelled.{spelling_of};
ghost use Rattle.ltc_word.specs.Spelling.{Spells};
ghost use Rattle.direction_reader.specs.declared.event.Event.{Event};
ghost use Rattle.direction_reader.specs.ListEvents.{AreEvents};
ghost use Rattle.flywheel.specs.declared.frame.Frame.{Frame};
ghost use Rattle.flywheel.specs.declared.heard.HeardWord.{HeardWord};
ghost use Rattle.flywheel.specs.Frames.{frames};
ghost use Rattle.ltc_jam.specs.Cells.{clean_cells, clean_events, intervals_of_frame, intervals_of_lead, steady_cells};
ghost use Rattle.ltc_jam.specs.Labels.{AreEventsOf, AreFramesOf, AreHeardOf};
ghost use Rattle.ltc_jam.specs.Word.{time_bits, word_of};

use biphase::laws::shaped_cells_are_a_chain;
use direction_reader::laws::{events_are_those_that_are_spelled, played_words_are_read};
use ltc_word::laws::{each_word_has_its_spelling, spelling_is_exact, words_of_round_labels};
use tc_address::laws::number_and_label_are_inverse;

/// Cells of one length are those of a shape that stays.
pub fn cells_of_one_length_are_shaped()
    ensures { (cell : ℕ) (bits : List Bool) → steady_cells cell bits ≡ shaped (shape_with cell cell 0) bits }
{}

/// A clean recording is the intervals that come first, and then those of one frame after another.
pub fn a_clean_recording_is_written_frame_by_frame()
    ensures { (cell : ℕ) (frames : List Frame)
        → flat (clean_cells cell frames) ≡ intervals_of_lead cell ++ flat_map (intervals_of_frame cell) frames }
{}

/// The word of a label has its spelling.
pub fn words_of_labels_are_spelled()
    ensures { (label : Address) → IsLabel label
        → Spells (system_with label.count) (word_of label) (spelling_of (word_of label)) }
{
    each_word_has_its_spelling();
}

/// The words that are written for labels of nothing but zeros and for one hour in drop-frame, as 80 bits: no user bit
/// is set, no flag except that of drop-frame, and the polarity correction if the word needs it to be balanced.
pub fn words_of_round_labels_are_written_so()
    ensures zero_at_30 { time_bits Forward (address C30 0 0 0 0) ≡ 0xbffc0000000008000000 }
    ensures zero_at_25 { time_bits Forward (address C25 0 0 0 0) ≡ 0xbffc0800000000000000 }
    ensures one_hour { time_bits Forward (address Drop30 1 0 0 0) ≡ 0xbffc0001000008000400 }
{
    words_of_round_labels();
    words_of_labels_are_spelled();
    spelling_is_exact();
}

/// A step from a label leads to a label of its count.
pub fn steps_lead_to_labels()
    ensures { (label : Address) (steps : ℤ) → IsLabel label
        → IsLabel (step label steps) × ((step label steps).count ≡ label.count) }
{
    number_and_label_are_inverse();
}

/// The words that are read of a recording have labels of its system, and so have the frames of words
/// that have.
pub fn what_is_read_has_labels_of_its_system()
    ensures events { (system : System) (profile : Profile) (intervals : List ℕ) (events : List Event)
        → AreEvents system profile intervals events → AreEventsOf system events }
    ensures frames { (system : System) (limit : ℕ) (words : List HeardWord) (last : ℕ) → AreHeardOf system words
        → AreFramesOf system (frames limit words last) }
{
    events_are_those_that_are_spelled();
    steps_lead_to_labels();
}

/// From a clean recording each frame that was heard or invented is read, in order: its word, in its
/// direction, in its place. No word is refused, and no code is lost, even if the direction changes
/// or frames were gone.
pub fn clean_recordings_are_read()
    ensures { (system : System) (cell : ℕ) (frames : List Frame) → IsShaped cell → AreFramesOf system frames
        → AreEvents system Normal (flat (clean_cells cell frames)) (clean_events cell frames) }
{
    cells_of_one_length_are_shaped();
    words_of_labels_are_spelled();
    shaped_cells_are_a_chain();
    played_words_are_read();
}
