//! Writing a word as the 90 bits of a line.

ghost use Rattle.std.specs.Prelude.{◌≡◌, ◌*◌, ◌^◌, ◌<◌};
ghost use Rattle.tc_address.specs.Count.{system_with};
ghost use Rattle.tc_bits.specs.Table.{digit};
ghost use Rattle.vitc_line.specs.Places.{HasLines, field_mark_bit};
ghost use Rattle.vitc_line.specs.Spelling.{Spells};

use crate::check_bits::check_of;
use crate::places::{ALL_SYNC_PAIRS, CHECK, field_mark, table};
use crate::word::VitcWord;
use tc_address::{System, system_of};
use tc_bits::laws::{a_row_is_its_sum, fields_are_exact};
use tc_bits::{Place, field_bits};

/// The field mark in its place.
fn mark_bit(system: System, mark: bool) -> u128
    ensures within { result < 2 ^ 80 }
    ensures value { result ≡ digit mark * 2 ^ field_mark_bit system }
{
    if mark { 1 << field_mark(system) } else { 0 }
}

/// The 90 bits of a word, of which bit 0 comes first in time.
pub fn encode(word: &VitcWord) -> u128
    requires { HasLines (system_with word.now.fields.label.count) }
    ensures { Spells (system_with word.now.fields.label.count) word.now result }
{
    // The numbers share out the bits, so each of them is in its place of their sum.
    a_row_is_its_sum();
    fields_are_exact();
    let system = system_of(word.fields.label().count());
    let unchecked = mark_bit(system, word.field_mark)
        + ALL_SYNC_PAIRS
        + field_bits(&table(system), &word.fields);
    unchecked + CHECK.holding(check_of(unchecked))
}
