//! What follows from the definitions alone, and messages from outside.
ghost use Rattle.std.specs.Prelude.{◌≡◌, ℕ, List, [], ◌∷◌, ◌++◌, true, false};
ghost use Rattle.tc_address.specs.declared.count.Count.TheVariants.{C24, C25, C30, Drop30};
ghost use Rattle.tc_address.specs.declared.direction.Direction.TheVariants.{Forward, Backward};
ghost use Rattle.tc_address.specs.Label.{Address, address};
ghost use Rattle.quarter_frame.specs.Message.{full_of, quarter_of};
ghost use Rattle.flywheel.specs.declared.frame.Frame.{Frame};
ghost use Rattle.flywheel.specs.declared.heard.HeardWord.{HeardWord};
ghost use Rattle.flywheel.specs.Frames.{frames};
ghost use Rattle.mtc_reader.specs.Events.{events_in};
ghost use Rattle.quarter_frame.specs.ReadAgain.{placed, read_of, AreLabelled, IsNeighbour, Placed};
ghost use Rattle.quarter_frame.specs.Runs.{before, four_of, mtc_of, quarters};
ghost use Rattle.flywheel.specs.GoOn.{goes_on};

use flywheel::laws::{steps_are_due_in_order, the_next_word_fits};
use mtc_reader::laws::a_run_is_read_back;
use tc_address::laws::{number_and_label_are_inverse, steps_add_up};

/// The eight quarter frames of two neighbouring frames carry the earlier label of the two.
pub fn a_pair_carries_its_earlier_label()
    ensures forward { (earlier later : Address) → before later ≡ earlier
        → four_of earlier Forward true ++ four_of later Forward false
        ≡ quarters earlier (0 ∷ 1 ∷ 2 ∷ 3 ∷ 4 ∷ 5 ∷ 6 ∷ 7 ∷ []) }
    ensures backward { (earlier later : Address) → before later ≡ earlier
        → four_of later Backward true ++ four_of earlier Backward false
        ≡ quarters earlier (7 ∷ 6 ∷ 5 ∷ 4 ∷ 3 ∷ 2 ∷ 1 ∷ 0 ∷ []) }
{}

/// A full message of each count, and a quarter frame with its code, as other software makes them.
pub fn messages_of_each_count()
    ensures full_at_twenty_four { full_of (address C24 23 59 59 20)
        ≡ 0xf0 ∷ 0x7f ∷ 0x7f ∷ 0x01 ∷ 0x01 ∷ 0x17 ∷ 0x3b ∷ 0x3b ∷ 0x14 ∷ 0xf7 ∷ [] }
    ensures full_at_twenty_five { full_of (address C25 11 29 59 22)
        ≡ 0xf0 ∷ 0x7f ∷ 0x7f ∷ 0x01 ∷ 0x01 ∷ 0x2b ∷ 0x1d ∷ 0x3b ∷ 0x16 ∷ 0xf7 ∷ [] }
    ensures full_at_thirty_drop { full_of (address Drop30 16 44 59 26)
        ≡ 0xf0 ∷ 0x7f ∷ 0x7f ∷ 0x01 ∷ 0x01 ∷ 0x50 ∷ 0x2c ∷ 0x3b ∷ 0x1a ∷ 0xf7 ∷ [] }
    ensures full_at_thirty { full_of (address C30 19 39 59 27)
        ≡ 0xf0 ∷ 0x7f ∷ 0x7f ∷ 0x01 ∷ 0x01 ∷ 0x73 ∷ 0x27 ∷ 0x3b ∷ 0x1b ∷ 0xf7 ∷ [] }
    ensures last_at_twenty_four { quarter_of (address C24 23 59 59 20) 7 ≡ 0xf1 ∷ 0x71 ∷ [] }
    ensures last_at_twenty_five { quarter_of (address C25 11 29 59 22) 7 ≡ 0xf1 ∷ 0x72 ∷ [] }
    ensures last_at_thirty_drop { quarter_of (address Drop30 16 44 59 26) 7 ≡ 0xf1 ∷ 0x75 ∷ [] }
    ensures last_at_thirty { quarter_of (address C30 19 39 59 27) 7 ≡ 0xf1 ∷ 0x77 ∷ [] }
{}

/// What is sent of the frames of words is read as these frames: run by run a full message with the first
/// label, and then, for each two frames, their earlier label with the run's direction, each at the byte
/// that completes it.
pub fn what_is_sent_is_read_back()
    ensures events { (limit last : ℕ) (words : List HeardWord) → AreLabelled words
        → events_in (mtc_of (frames limit words last)) ≡ read_of (frames limit words last) }
    ensures neighbours { (limit last : ℕ) (words : List HeardWord) (front rest : List Frame) (first second : Frame)
        → AreLabelled words
        → frames limit words last ≡ front ++ first ∷ second ∷ rest → goes_on second ≡ true
        → (a b : Placed) × (placed first ≡ a ∷ []) × (placed second ≡ b ∷ []) × IsNeighbour a b }
{
    a_run_is_read_back();
    steps_are_due_in_order();
    the_next_word_fits();
    steps_add_up();
    number_and_label_are_inverse();
}

/// What is sent of some frames comes first, whatever frames follow.
pub fn messages_of_a_front_come_first()
    ensures { (frames more : List Frame) → (rest : List ℕ) × (mtc_of (frames ++ more) ≡ mtc_of frames ++ rest) }
{}
