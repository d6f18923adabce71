//! The word that is written for a label. Read next: `ltc_word/src/writing.rt`, which spells it, and then
//! `cells`.
ghost use Rattle.std.specs.Prelude.{◌≡◌, ◌^◌, ◌<◌};
ghost use Rattle.tc_bits.specs.Fields.{IsFields};
ghost use Rattle.direction_reader.specs.Played.{in_time};
ghost use Rattle.ltc_jam.specs.Word.{drops, time_bits, word_of};

use ltc_word::{LtcWord, reversed, spelling};
use tc_address::{Count, Direction, Label};
use tc_bits::{Fields, Flags, UserBits};

/// The word of a label: user bits 0, no flag except that of drop-frame, and balanced.
pub fn word_of(label: &Label) -> LtcWord
    ensures value { result ≡ word_of label.now }
    ensures valid { IsFields result.fields }
{
    let flags = Flags {
        drop_frame: drops(label.count()),
        colour_frame: false,
        group_flag_zero: false,
        group_flag_one: false,
        group_flag_two: false,
    };
    match Fields::new(*label, flags, UserBits::new(0)) {
        Ok(fields) => LtcWord {
            fields,
            balanced: true,
        },
        Err(_) => unreachable!(),
    }
}

/// Whether the count drops labels.
fn drops(count: Count) -> bool
    ensures { result ≡ drops count }
{
    match count {
        Count::C24 | Count::C25 | Count::C30 => false,
        Count::Drop30 => true,
    }
}

/// The 80 bits of the word of a label as it is played in a direction, bit 0 first in time.
pub fn played_bits(direction: Direction, label: &Label) -> u128
    ensures value { result ≡ time_bits direction label.now }
    ensures width { result < 2 ^ 80 }
    ensures valid { IsFields (word_of label.now).fields }
{
    let bits = spelling(&word_of(label));
    in_time(direction, bits)
}

/// The bits in the order of time in which they are played.
fn in_time(direction: Direction, bits: u128) -> u128
    requires { bits < 2 ^ 80 }
    ensures value { result ≡ in_time direction bits }
    ensures width { result < 2 ^ 80 }
{
    match direction {
        Direction::Forward => bits,
        Direction::Backward => reversed(bits),
    }
}
