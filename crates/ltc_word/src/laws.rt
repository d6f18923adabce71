//! What follows from the definitions alone, and words from outside that pin the table.

ghost use Rattle.std.specs.Prelude.{◌≡◌, ℕ, ◌<◌, ◌≤◌, ◌+◌, ◌-◌, ◌*◌, ◌^◌, ◌⊎◌, Some, None, true, false};
ghost use Rattle.std.specs.Int.{bit_at};
ghost use Rattle.tc_address.specs.declared.system.System.{System};
ghost use Rattle.tc_address.specs.declared.system.System.TheVariants.{F24, F25, F30};
ghost use Rattle.tc_address.specs.declared.count.Count.TheVariants.{C24, C25, C30, Drop30};
ghost use Rattle.tc_bits.specs.declared.fault.FieldFault.{FieldFault};
ghost use Rattle.ltc_word.specs.declared.places.TheConstants as places;
ghost use Rattle.ltc_word.specs.declared.word.LtcWord.{LtcWord};
ghost use Rattle.ltc_word.specs.declared.word.WordFault.TheVariants.{Field};
ghost use Rattle.tc_address.specs.Count.{system_with};
ghost use Rattle.tc_bits.specs.Fields.{IsFields};
ghost use Rattle.ltc_word.specs.Places.{are_shared_out, places_of};
ghost use Rattle.ltc_word.specs.Reading.{fault_in, word_in};
ghost use Rattle.ltc_word.specs.Spelled.{spelling_of};
ghost use Rattle.ltc_word.specs.Spelling.{Spells, word_with};
ghost use Rattle.tc_bits.specs.Fields.{flags};
ghost use Rattle.ltc_word.specs.Fault.{first_fault};
ghost use Rattle.ltc_word.specs.Reversal.{EndsInSync, reversed_bits, HasTwelveOnes};

use tc_bits::laws::{a_row_is_its_sum, digits_are_exact, fields_are_exact};

/// Where each field is in a word: its first bit, as the table of the standard has it, and the sync word.
pub fn the_places_are_these()
    ensures table { places.TABLE ≡ record {
      frame_units = 0;
      user_one = 4;
      frame_tens = 8;
      drop_frame = 10;
      colour_frame = 11;
      user_two = 12;
      second_units = 16;
      user_three = 20;
      second_tens = 24;
      user_four = 28;
      minute_units = 32;
      user_five = 36;
      minute_tens = 40;
      group_flag_zero = 43;
      user_six = 44;
      hour_units = 48;
      user_seven = 52;
      hour_tens = 56;
      group_flag_one = 58;
      group_flag_two = 59;
      user_eight = 60;
    } }
    ensures twenty_seven { places.BIT_27 ≡ 27 }
    ensures forty_three { places.BIT_43 ≡ 43 }
    ensures fifty_nine { places.BIT_59 ≡ 59 }
    ensures sync { places.SYNC ≡ record { first = 64; width = 16 } }
    ensures pattern { places.SYNC_PATTERN ≡ 0xbffc }
{}

/// Each of the 80 bits belongs to exactly one place, in each system.
pub fn each_bit_has_one_place()
    ensures at_24 { are_shared_out (places_of F24) ≡ true }
    ensures at_25 { are_shared_out (places_of F25) ≡ true }
    ensures at_30 { are_shared_out (places_of F30) ≡ true }
{}

/// 80 bits spell one word at most, a word has one spelling at most, and bits that spell a word have
/// no fault.
pub fn spelling_is_exact()
    ensures one_word { (system : System) (a b : LtcWord) (bits : ℕ) → Spells system a bits → Spells system b bits
        → a ≡ b }
    ensures one_spelling { (system : System) (word : LtcWord) (a b : ℕ) → Spells system word a → Spells system word b
        → a ≡ b }
    ensures no_fault { (system : System) (word : LtcWord) (bits : ℕ) → Spells system word bits
        → first_fault system bits ≡ None }
{
    a_row_is_its_sum();
    digits_are_exact();
    fields_are_exact();
}

/// Each word has a spelling: its numbers by the weights of their places, with the polarity correction.
pub fn each_word_has_its_spelling()
    ensures { (word : LtcWord) → IsFields word.fields → word.fields.user < 2 ^ 32
        → Spells (system_with word.fields.label.count) word (spelling_of word) }
{
    a_row_is_its_sum();
    fields_are_exact();
}

/// Bits that end in the sync word spell a word, or their fields have a first fault.
pub fn bits_in_sync_spell_a_word_or_have_a_fault()
    ensures { (system : System) (bits : ℕ) → bits < 2 ^ 80 → EndsInSync bits
        → ((word : LtcWord) × Spells system word bits)
        ⊎ ((fault : FieldFault) × (first_fault system bits ≡ Some (Field fault))) }
{
    digits_are_exact();
    fields_are_exact();
}

/// The word that is in bits is the one that they spell, and their first fault is that of the fields
/// in them.
pub fn what_stands_in_bits_is_what_they_spell()
    ensures word { (system : System) (word : LtcWord) (bits : ℕ) → Spells system word bits
        → (fault_in system bits ≡ None) × (word ≡ word_in system bits) }
    ensures spells { (system : System) (bits : ℕ) → bits < 2 ^ 80 → EndsInSync bits
        → fault_in system bits ≡ None → Spells system (word_in system bits) bits }
    ensures fault { (system : System) (bits : ℕ) (fault : FieldFault) → first_fault system bits ≡ Some (Field fault)
        → fault_in system bits ≡ Some fault }
    ensures first { (system : System) (bits : ℕ) (fault : FieldFault) → EndsInSync bits
        → fault_in system bits ≡ Some fault → first_fault system bits ≡ Some (Field fault) }
{
    digits_are_exact();
    fields_are_exact();
}

/// Twelve ones in a row occur in a word only in its sync word, at the bits 66 to 77. In two words
/// that follow each other they occur only in the two sync words.
pub fn twelve_ones_are_the_sync_word()
    ensures one { (system : System) (word : LtcWord) (bits i : ℕ) → Spells system word bits → i ≤ 68
        → HasTwelveOnes bits i → i ≡ 66 }
    ensures between { (system : System) (a b : LtcWord) (x y i : ℕ) → Spells system a x → Spells system b y
        → i < 80 → HasTwelveOnes (x + y * 2 ^ 80) i → i ≡ 66 }
{}

/// To take 80 bits in reverse order gives 80 bits, and twice gives them back.
pub fn reversed_twice_is_the_same()
    ensures width { (bits : ℕ) → reversed_bits bits < 2 ^ 80 }
    ensures bits { (bits i : ℕ) → i < 80 → bit_at (reversed_bits bits) i ≡ bit_at bits (79 - i) }
    ensures twice { (bits : ℕ) → bits < 2 ^ 80 → reversed_bits (reversed_bits bits) ≡ bits }
{}

/// Words that spell a label of nothing but zeros, and one hour in drop-frame.
pub fn words_of_round_labels()
    ensures zero_at_30 { Spells F30 (word_with C30 0 0 0 0 (flags false false false false false) 0 true)
        0xbffc0000000008000000 }
    ensures zero_at_25 { Spells F25 (word_with C25 0 0 0 0 (flags false false false false false) 0 true)
        0xbffc0800000000000000 }
    ensures unbalanced { Spells F30 (word_with C30 0 0 0 0 (flags false false false false false) 0 false)
        0xbffc0000000000000000 }
    ensures one_hour { Spells F30 (word_with Drop30 1 0 0 0 (flags true false false false false) 0 true)
        0xbffc0001000008000400 }
{
    fields_are_exact();
}

/// 19:47:58:23 with the user bits `fce0ba6d`: 16 different digits, one in each place of the table,
/// worked out from it by hand. In the three words of a system no two flags are set alike, nor
/// is one set as the polarity correction.
pub fn words_worked_out_by_hand()
    ensures first_at_24 { Spells F24 (word_with C24 19 47 58 23 (flags true false true false false) 0xfce0ba6d true)
        0xbffcf1c9ec07bda866d3 }
    ensures first_at_25 { Spells F25 (word_with C25 19 47 58 23 (flags true false true false false) 0xfce0ba6d true)
        0xbffcf9c9e407bda866d3 }
    ensures second_at_25 { Spells F25 (word_with C25 19 47 58 23 (flags false true false true false) 0xfce0ba6d false)
        0xbffcf5c9e407b5a86ad3 }
    ensures third_at_25 { Spells F25 (word_with C25 19 47 58 23 (flags true true false false true) 0xfce0ba6d true)
        0xbffcf1c9ec07b5a86ed3 }
    ensures first_at_30 { Spells F30 (word_with Drop30 19 47 58 23 (flags true false true false false) 0xfce0ba6d true)
        0xbffcf1c9ec07bda866d3 }
    ensures second_at_30 { Spells F30 (word_with C30 19 47 58 23 (flags false true false true false) 0xfce0ba6d false)
        0xbffcf5c9e407b5a86ad3 }
    ensures third_at_30 { Spells F30 (word_with Drop30 19 47 58 23 (flags true true false false true) 0xfce0ba6d true)
        0xbffcf9c9e407b5a86ed3 }
{
    fields_are_exact();
}
