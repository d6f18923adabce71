//! Where each field is in the 80 bits of a word (SMPTE 12M, the table of the linear time code word). Bit 0 is the
//! first in time, and each field has its least significant bit first. Read next: `balance`.

ghost use Rattle.std.specs.Prelude.{◌≡◌, ◌^◌, ◌<◌};
ghost use Rattle.ltc_word.specs.Places.{polarity_bit, table_of};

use tc_address::System;
use tc_bits::{Place, Table};

/// The first bit of each field, at 24 and 30 frames.
pub const TABLE: Table = Table {
    frame_units: 0,
    user_one: 4,
    frame_tens: 8,
    drop_frame: 10,
    colour_frame: 11,
    user_two: 12,
    second_units: 16,
    user_three: 20,
    second_tens: 24,
    user_four: 28,
    minute_units: 32,
    user_five: 36,
    minute_tens: 40,
    group_flag_zero: 43,
    user_six: 44,
    hour_units: 48,
    user_seven: 52,
    hour_tens: 56,
    group_flag_one: 58,
    group_flag_two: 59,
    user_eight: 60,
};

/// The polarity correction at 24 and 30 frames, binary group flag 0 at 25.
pub const BIT_27: u32 = 27;

/// Binary group flag 0 at 24 and 30 frames, binary group flag 2 at 25.
pub const BIT_43: u32 = 43;

/// Binary group flag 2 at 24 and 30 frames, the polarity correction at 25.
pub const BIT_59: u32 = 59;

/// The sync word.
pub const SYNC: Place = Place {
    first: 64,
    width: 16,
};

/// The sync word as a number, bit 64 the least significant: in time `0 0 1 1 1 1 1 1 1 1 1 1 1 1 0 1`.
pub const SYNC_PATTERN: u32 = 0xbffc;

/// The polarity correction, set in its place.
pub(crate) fn correction(system: System) -> u128
    ensures within { result < 2 ^ 80 }
    ensures value { result ≡ 2 ^ polarity_bit system }
{
    match system {
        System::F24 | System::F30 => 1 << BIT_27,
        System::F25 => 1 << BIT_59,
    }
}

/// The first bit of each field in the system.
pub(crate) fn table(system: System) -> Table
    ensures { result ≡ table_of system }
{
    match system {
        System::F24 | System::F30 => TABLE,
        System::F25 => Table {
            group_flag_zero: BIT_27,
            group_flag_two: BIT_43,
            ..TABLE
        },
    }
}
