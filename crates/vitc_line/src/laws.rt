//! What follows from the definitions alone, and lines from outside that pin the table.

ghost use Rattle.std.specs.Prelude.{◌≡◌, ◌⊎◌, ℕ, ◌<◌, ◌^◌, ◌%◌, Some, None, true, false};
ghost use Rattle.tc_address.specs.declared.system.System.{System};
ghost use Rattle.tc_address.specs.declared.system.System.TheVariants.{F25, F30};
ghost use Rattle.tc_address.specs.declared.count.Count.TheVariants.{C25, C30, Drop30};
ghost use Rattle.tc_address.specs.Count.{system_with};
ghost use Rattle.tc_bits.specs.Fields.{IsFields};
ghost use Rattle.vitc_line.specs.declared.places.TheConstants as places;
ghost use Rattle.vitc_line.specs.declared.word.LineFault.{LineFault};
ghost use Rattle.vitc_line.specs.declared.word.VitcWord.{VitcWord};
ghost use Rattle.vitc_line.specs.Places.{are_shared_out, places_of};
ghost use Rattle.vitc_line.specs.Spelled.{line_of};
ghost use Rattle.vitc_line.specs.Spelling.{Spells, word_with};
ghost use Rattle.tc_bits.specs.Fields.{flags};
ghost use Rattle.vitc_line.specs.Fault.{first_fault};

use tc_bits::laws::{a_row_is_its_sum, digits_are_exact, fields_are_exact};

/// Where each field is in a line: its first bit, as the table of the standard has it; the check, and a sync pair.
pub fn the_places_are_these()
    ensures table { places.TABLE ≡ record {
      frame_units = 2;
      user_one = 6;
      frame_tens = 12;
      drop_frame = 14;
      colour_frame = 15;
      user_two = 16;
      second_units = 22;
      user_three = 26;
      second_tens = 32;
      user_four = 36;
      minute_units = 42;
      user_five = 46;
      minute_tens = 52;
      group_flag_zero = 55;
      user_six = 56;
      hour_units = 62;
      user_seven = 66;
      hour_tens = 72;
      group_flag_one = 74;
      group_flag_two = 75;
      user_eight = 76;
    } }
    ensures thirty_five { places.BIT_35 ≡ 35 }
    ensures fifty_five { places.BIT_55 ≡ 55 }
    ensures seventy_five { places.BIT_75 ≡ 75 }
    ensures check { places.CHECK ≡ record { first = 82; width = 8 } }
    ensures pair { places.SYNC_PAIR ≡ 1 }
{}

/// Each of the 90 bits belongs to exactly one place, in each system.
pub fn each_bit_has_one_place()
    ensures at_25 { are_shared_out (places_of F25) ≡ true }
    ensures at_30 { are_shared_out (places_of F30) ≡ true }
{}

/// 90 bits spell one word at most, a word has one spelling at most, and bits that spell a word have
/// no fault.
pub fn spelling_is_exact()
    ensures one_word { (system : System) (a b : VitcWord) (bits : ℕ) → Spells system a bits → Spells system b bits
        → a ≡ b }
    ensures one_spelling { (system : System) (word : VitcWord) (a b : ℕ) → Spells system word a → Spells system word b
        → a ≡ b }
    ensures no_fault { (system : System) (word : VitcWord) (bits : ℕ) → Spells system word bits
        → first_fault system bits ≡ None }
{
    a_row_is_its_sum();
    digits_are_exact();
    fields_are_exact();
}

/// 90 bits spell a word, or they have a first fault.
pub fn bits_spell_a_word_or_have_a_fault()
    ensures { (system : System) (bits : ℕ) → bits < 2 ^ 90
        → ((word : VitcWord) × Spells system word bits)
        ⊎ ((fault : LineFault) × (first_fault system bits ≡ Some fault)) }
{
    digits_are_exact();
    fields_are_exact();
}

/// A word that has lines is spelled by one: the sum of its numbers by their weights, with the check.
pub fn each_word_has_its_line()
    ensures spells { (word : VitcWord) → IsFields word.fields → word.fields.user < 2 ^ 32
        → Spells (system_with word.fields.label.count) word (line_of word) }
    ensures width { (word : VitcWord) → IsFields word.fields → word.fields.user < 2 ^ 32 → line_of word < 2 ^ 90 }
    ensures odd { (word : VitcWord) → IsFields word.fields → word.fields.user < 2 ^ 32 → line_of word % 2 ≡ 1 }
{
    a_row_is_its_sum();
    fields_are_exact();
}

/// Lines that spell a label of nothing but zeros: the ones are those of the sync pairs, of the field
/// mark and of the check.
pub fn lines_of_a_round_label()
    ensures zero_at_30 { Spells F30 (word_with C30 0 0 0 0 (flags false false false false false) 0 false)
        0x10100401004010040100401 }
    ensures second_field_at_30 { Spells F30 (word_with C30 0 0 0 0 (flags false false false false false) 0 true)
        0x10900401004010840100401 }
    ensures second_field_at_25 { Spells F25 (word_with C25 0 0 0 0 (flags false false false false false) 0 true)
        0x10908401004010040100401 }
{
    fields_are_exact();
}

/// 19:47:58:23 with the user bits `fce0ba6d`: 16 different digits, one in each place of the table,
/// worked out from it by hand. In the three lines of a system no two of the flags and the mark are set
/// alike.
pub fn lines_worked_out_by_hand()
    ensures first_at_25 { Spells F25 (word_with C25 19 47 58 23 (flags true false true false false) 0xfce0ba6d true)
        0x265f9725e441dbd6a16674d }
    ensures second_at_25 { Spells F25 (word_with C25 19 47 58 23 (flags false true false true false) 0xfce0ba6d true)
        0x2a9fd725e441db56a16a74d }
    ensures third_at_25 { Spells F25 (word_with C25 19 47 58 23 (flags true true false false true) 0xfce0ba6d false)
        0x265f1725ec41db56a16e74d }
    ensures first_at_30 { Spells F30 (word_with Drop30 19 47 58 23 (flags true false true false false) 0xfce0ba6d true)
        0x2edf1725ec41dbd6a16674d }
    ensures second_at_30 { Spells F30 (word_with C30 19 47 58 23 (flags false true false true false) 0xfce0ba6d true)
        0x2a9f5725e441dbd6a16a74d }
    ensures third_at_30 { Spells F30 (word_with Drop30 19 47 58 23 (flags true true false false true) 0xfce0ba6d false)
        0x2edf9725e441db56a16e74d }
{
    fields_are_exact();
}
