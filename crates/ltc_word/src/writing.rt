//! Writing a word as its 80 bits.

ghost use Rattle.std.specs.Prelude.{◌≡◌, ◌^◌, ◌<◌};
ghost use Rattle.tc_address.specs.Count.{system_with};
ghost use Rattle.ltc_word.specs.Spelled.{spelling_of};
ghost use Rattle.ltc_word.specs.Spelling.{Spells};

use crate::balance::is_balanced;
use crate::laws::{each_word_has_its_spelling, spelling_is_exact};
use crate::places::{SYNC, SYNC_PATTERN, correction, table};
use crate::word::LtcWord;
use tc_address::system_of;
use tc_bits::field_bits;
use tc_bits::laws::{a_row_is_its_sum, fields_are_exact};

/// The 80 bits of a word, of which bit 0 comes first in time. The polarity correction is set if
/// the balance of the word needs it.
pub fn encode(word: &LtcWord) -> u128
    ensures { Spells (system_with word.now.fields.label.count) word.now result }
{
    // The numbers share out the bits, so each of them is in its place of their sum.
    a_row_is_its_sum();
    fields_are_exact();
    let system = system_of(word.fields.label().count());
    let uncorrected = SYNC.holding(SYNC_PATTERN) + field_bits(&table(system), &word.fields);
    if is_balanced(uncorrected) == word.balanced {
        uncorrected
    } else {
        uncorrected + correction(system)
    }
}

/// The same as one number by the weights of the places, which is below 2 to the 80th.
pub fn spelling(word: &LtcWord) -> u128
    ensures value { result ≡ spelling_of word.now }
    ensures width { result < 2 ^ 80 }
{
    each_word_has_its_spelling();
    spelling_is_exact();
    encode(word)
}
