//! What follows from the definitions alone: of the list of a day, of steps, ways and texts.
ghost use Rattle.std.specs.Prelude.{◌≡◌, ℕ, ◌+◌, ◌*◌, ◌<◌, List, ℤ, pos, ◌+ℤ◌, slice_get, Some};
ghost use Rattle.tc_address.specs.declared.count.Count.{Count};
ghost use Rattle.tc_address.specs.Count.{rate_of, system_with};
ghost use Rattle.tc_address.specs.DropFrame.{dropped_before};
ghost use Rattle.tc_address.specs.KnownLabels.{AreApart, AreNumbered, labels_apart, numbered_labels};
ghost use Rattle.tc_address.specs.Label.{Address, labels, IsLabel};
ghost use Rattle.tc_address.specs.Numbering.{day_length, number_of, step};
ghost use Rattle.tc_address.specs.Circle.{moved, IsShortest};
ghost use Rattle.tc_address.specs.declared.spelling.TextFault.{TextFault};
ghost use Rattle.tc_address.specs.Spelling.{label_in, text_of, IsFirstTextFault};

/// Within a day a label is found by its number, and what is found by a number has that number. Each label
/// has a number of the day.
pub fn number_and_label_are_inverse()
    ensures label { (a : Address) → IsLabel a → slice_get (labels a.count) (number_of a) ≡ Some a }
    ensures number { (c : Count) (n : ℕ) (a : Address) → slice_get (labels c) n ≡ Some a
        → (number_of a ≡ n) × (a.count ≡ c) × IsLabel a }
    ensures below { (a : Address) → IsLabel a → number_of a < day_length a.count }
{}

/// The number of a label is the count of frames before it by its digits, less what was dropped before its minute.
pub fn a_label_has_its_number_by_its_digits()
    ensures { (a : Address) → IsLabel a → number_of a + dropped_before a.count (60 * a.hours + a.minutes)
        ≡ rate_of (system_with a.count) * (60 * (60 * a.hours + a.minutes) + a.seconds) + a.frames }
{}

/// Labels worked out by hand have these numbers, and follow each other so, forward and back: over midnight, over the end
/// of a minute that drops labels, and of one that does not.
pub fn labels_follow_each_other_so()
    ensures numbers { AreNumbered numbered_labels }
    ensures steps { AreApart labels_apart }
{}

/// No step leads to the label itself, and steps add up.
pub fn steps_add_up()
    ensures none { (a : Address) → IsLabel a → step a (pos 0) ≡ a }
    ensures sum { (a : Address) (j k : ℤ) → step (step a j) k ≡ step a (j +ℤ k) }
{}

/// A step moves the number by as many places on the circle of the day, and leads to a label of the same
/// count.
pub fn a_step_moves_the_number()
    ensures number { (a : Address) (steps : ℤ)
        → number_of (step a steps) ≡ moved (day_length a.count) (number_of a) steps }
    ensures label { (a : Address) (steps : ℤ) → ((step a steps).count ≡ a.count) × IsLabel (step a steps) }
{}

/// On a circle one move after another is the move by their sum.
pub fn moves_add_up()
    ensures { (day place : ℕ) (first then : ℤ) → 0 < day
        → moved day (moved day place first) then ≡ moved day place (first +ℤ then) }
{}

/// One way between two places of a circle is the shortest.
pub fn one_way_is_shortest()
    ensures { (day a b : ℕ) (d e : ℤ) → a < day → IsShortest day a b d → IsShortest day a b e → d ≡ e }
{}

/// Two labels of a count with one text are one label.
pub fn a_text_has_one_label()
    ensures { (a b : Address) → a.count ≡ b.count → text_of a ≡ text_of b → a ≡ b }
{}

/// The text of a label is read as that label, and a text that is read as a label is the text of it.
pub fn a_text_is_read_as_its_label()
    ensures read { (a : Address) → IsLabel a → label_in a.count (text_of a) ≡ Some a }
    ensures only { (c : Count) (text : List ℕ) (a : Address) → label_in c text ≡ Some a
        → (text ≡ text_of a) × (a.count ≡ c) }
{}

/// A text has one first fault at most.
pub fn a_text_has_one_first_fault()
    ensures { (c : Count) (text : List ℕ) (fault other : TextFault) → IsFirstTextFault c text fault
        → IsFirstTextFault c text other → fault ≡ other }
{}
