//! What reading is, what lines of words name, and the ends of the ranges that the table holds.
ghost use Rattle.std.specs.Prelude.{◌≡◌, ◌+◌, ℕ, List, length, true, None, Ok, Err};
ghost use Rattle.forms.specs.Form.{SlotRow};
ghost use Rattle.forms.specs.Help.{are_listed_so, are_typed_so};
ghost use Rattle.forms.specs.Lines.{AreNamed, AreRefused, AreTaken, named_lines, refused_lines, taken_lines};
ghost use Rattle.forms.specs.Number.{Word};
ghost use Rattle.forms.specs.NumberedLines.{NameNoLabel, NameTheirLabels, lines_past, numbered_lines};
ghost use Rattle.forms.specs.Reading.{AreValues, read, value_at};
ghost use Rattle.forms.specs.declared.value.Value.{Value};
ghost use Rattle.forms.specs.declared.reading.TheConstants.{MAX_VALUES};

use tc_address::laws::{a_label_has_its_number_by_its_digits, number_and_label_are_inverse};

/// Each command and each word of a choice names its job, each range ends where the lines say, and each fault is the
/// first one.
pub fn each_line_is_read_so()
    ensures named { AreNamed named_lines }
    ensures taken { AreTaken taken_lines }
    ensures refused { AreRefused refused_lines }
{}

/// `label` names the label that has the number in its day, up to the last one.
pub fn a_number_names_its_label()
    ensures named { NameTheirLabels numbered_lines }
    ensures past { NameNoLabel lines_past }
{
    number_and_label_are_inverse();
    a_label_has_its_number_by_its_digits();
}

/// Words are read from the left: each value is what its word is in its slot after the values before it, and the fault
/// is the first word that has none.
pub fn words_are_read_from_the_left()
    ensures values { (slots : List SlotRow) (words : List Word) (values : List Value) → read slots words ≡ Ok values
        → (length values ≡ length words) × AreValues slots words values }
    ensures fault { (slots : List SlotRow) (words : List Word) (place : ℕ) → read slots words ≡ Err place
        → (values : List Value) × (length values + 1 ≡ place) × AreValues slots words values
        × (value_at slots words values (length values) ≡ None) }
{}

/// Help prints what is read: of a command that is typed in one way its line, and of each but `help` the lines of its
/// values, are those of its slots.
pub fn each_page_lists_what_is_taken()
    ensures typed { are_typed_so ≡ true }
    ensures listed { are_listed_so ≡ true }
{}

/// The longest form, that of `ltc-make`, has eight words behind its command.
pub fn the_longest_form_is_this()
    ensures { MAX_VALUES ≡ 8 }
{}
