//! What follows from the definition of frames alone.
ghost use Rattle.std.specs.Prelude.{◌≡◌, ℕ, ◌≤◌, ◌+◌, ◌↔◌, true, List, [], ◌∷◌, ◌++◌, map, length, None, All};
ghost use Rattle.std.specs.List.{filter, range_with_len};
ghost use Rattle.tc_address.specs.Label.{Address};
ghost use Rattle.flywheel.specs.declared.heard.HeardWord.{HeardWord};
ghost use Rattle.flywheel.specs.Frames.{due_steps, frames, is_due, is_next, label_after};
ghost use Rattle.flywheel.specs.declared.frame.Frame.{Frame};
ghost use Rattle.flywheel.specs.StandsFor.{StandsFor};
ghost use Rattle.flywheel.specs.Wheel.{Wheel};
ghost use Rattle.flywheel.specs.GoOn.{GoOn};
ghost use Rattle.flywheel.specs.LeadsTo.{LeadBothWays};
ghost use Rattle.tc_address.specs.KnownLabels.{labels_apart};
ghost use Rattle.flywheel.specs.Marked.{AreMarked, words_in, word_of};

use tc_address::laws::{labels_follow_each_other_so, steps_add_up};

/// Between two heard frames, and after the last, there are at most `limit` invented ones, with the steps
/// 1, 2 and so on, and the heard frames are exactly the words.
pub fn invention_is_bounded_and_marked()
    ensures marked { (limit last : ℕ) (words : List HeardWord) → AreMarked limit None (frames limit words last) }
    ensures heard { (limit last : ℕ) (words : List HeardWord) → words_in (frames limit words last) ≡ map word_of words }
{}

/// An invented frame and a joined one have the next label in the direction of the frame before, and no
/// first frame goes on.
pub fn a_frame_that_goes_on_is_the_next()
    ensures { (limit last : ℕ) (words : List HeardWord) → GoOn None (frames limit words last) }
{
    steps_add_up();
    the_next_word_fits();
}

/// The steps up to the limit that are due are the first ones, as many as there are.
pub fn steps_are_due_in_order()
    ensures first { (limit tick : ℕ) (word : HeardWord)
        → due_steps limit word tick ≡ range_with_len 1 (length (due_steps limit word tick)) }
    ensures due { (limit tick k : ℕ) (word : HeardWord) → 1 ≤ k → k ≤ limit
        → (k ≤ length (due_steps limit word tick)) ↔ (is_due word k tick ≡ true) }
{}

/// A word is the next exactly if direction, count and label fit.
pub fn the_next_word_fits()
    ensures { (before word : HeardWord) (k : ℕ) → (is_next before k word ≡ true)
        ↔ ((word.direction ≡ before.direction) × (word.label ≡ label_after before k)) }
{}

/// Forward a word leads to the labels after its own, and backward to those before it: over midnight, and over labels
/// that drop-frame counting drops. The labels are worked out by hand.
pub fn a_word_leads_to_these_labels()
    ensures { LeadBothWays labels_apart }
{
    labels_follow_each_other_so();
}

/// What a flywheel has given so far comes first among the frames of the words, and a later word adds
/// frames behind them.
pub fn frames_come_in_order()
    ensures given { (wheel : Wheel) (words : List HeardWord) (tick : ℕ) (given : List Frame)
        → StandsFor wheel words tick given → (rest : List Frame) × (frames wheel.limit words tick ≡ given ++ rest) }
    ensures word { (limit : ℕ) (words : List HeardWord) (word : HeardWord)
        → (rest : List Frame) × (frames limit (words ++ word ∷ []) word.tick ≡ frames limit words word.tick ++ rest) }
{}

/// If the words of some ticks are followed by words that are heard at the tick or later, the frames
/// up to that tick come first.
pub fn frames_of_a_front_come_first()
    ensures { (limit tick last : ℕ) (words more : List HeardWord) → tick ≤ last → All (λ word. tick ≤ word.tick) more
        → (rest : List Frame) × (frames limit (words ++ more) last ≡ frames limit words tick ++ rest) }
{}
