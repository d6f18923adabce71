//! What follows from the definitions alone: what is written of a label is read as that label; the forms, and columns by
//! hand.
ghost use Rattle.std.specs.Prelude.{◌≡◌, [], ◌∷◌, codes, decimal, map, Ok};
ghost use Rattle.tc_address.specs.declared.count.Count.TheVariants.{C24, C25, C30, Drop30};
ghost use Rattle.tc_address.specs.Label.{Address, IsLabel};
ghost use Rattle.tc_address.specs.Numbering.{number_of};
ghost use Rattle.tc_address.specs.Spelling.{text_of};
ghost use Rattle.label_lines.specs.declared.forms.TheConstants.{DROP_FORM, FORMS, LABEL_FORM};
ghost use Rattle.label_lines.specs.declared.timebase.Timebase.{Timebase};
ghost use Rattle.real_time.specs.Moment.{millisecond_at};
ghost use Rattle.label_lines.specs.Answer.{seconds_text};
ghost use Rattle.label_lines.specs.Line.{read_line, wrong_column};
ghost use Rattle.label_lines.specs.Timebase.{count_of, rate_of};

use real_time::laws::a_frame_comes_back_from_its_millisecond;
use tc_address::laws::{a_text_is_read_as_its_label, number_and_label_are_inverse};

/// A label is read from its text, from its number, and from the seconds that are written of it.
pub fn what_is_written_is_read()
    ensures text { (base : Timebase) (a : Address) → IsLabel a → a.count ≡ count_of base
        → read_line base (text_of a) ≡ Ok a }
    ensures number { (base : Timebase) (a : Address) → IsLabel a → a.count ≡ count_of base
        → read_line base (decimal (number_of a)) ≡ Ok a }
    ensures seconds { (base : Timebase) (a : Address) → IsLabel a → a.count ≡ count_of base
        → read_line base (seconds_text (millisecond_at (rate_of base) (number_of a))) ≡ Ok a }
{
    a_frame_comes_back_from_its_millisecond();
    a_text_is_read_as_its_label();
    number_and_label_are_inverse();
}

/// The forms of a line, as text.
pub fn forms_of_a_line()
    ensures label { LABEL_FORM.now ≡ codes "00:00:00:00" }
    ensures drop_frame { DROP_FORM.now ≡ codes "00:00:00;00" }
    ensures others { map (λ form. form.now) FORMS
        ≡ codes "0000000" ∷ codes "0.000" ∷ codes "00.000" ∷ codes "000.000" ∷ codes "0000.000"
        ∷ codes "00000.000" ∷ [] }
{}

/// Columns by hand: hours, frames and a label that is dropped; the separator of the other way of counting; a label, a
/// number and seconds that are cut off or too long; a carriage return; and a line of nothing.
#[tactic(auto, unfolding(crate::specs::Forms::fitting, crate::specs::Forms::fitting_one))]
pub fn columns_by_hand()
    ensures hours { wrong_column C25 (codes "24:00:00:00") ≡ 1 }
    ensures frames { wrong_column C24 (codes "10:00:00:24") ≡ 10 }
    ensures dropped { wrong_column Drop30 (codes "00:01:00;00") ≡ 10 }
    ensures separator { wrong_column C30 (codes "10:00:00;00") ≡ 9 }
    ensures cut_off { wrong_column C25 (codes "10:00:0") ≡ 8 }
    ensures few_decimals { wrong_column C25 (codes "3600.04") ≡ 8 }
    ensures many_digits { wrong_column C25 (codes "12345678") ≡ 8 }
    ensures carriage_return { wrong_column C25 (codes "10:00:00:00\r") ≡ 12 }
    ensures nothing { wrong_column C25 [] ≡ 1 }
{}
