//! Where each field is in the 90 bits of a line (SMPTE 12M, the table of the vertical interval time code). Bit 0 is
//! the first in time, and each field has its least significant bit first. Read next: `check_bits`.

ghost use Rattle.std.specs.Prelude.{◌≡◌, ◌<◌};
ghost use Rattle.vitc_line.specs.Places.{field_mark_bit, sync_pair_place, table_of};

use tc_address::System;
use tc_bits::{Place, Table};

/// The first bit of each field, at 30 frames.
pub const TABLE: Table = Table {
    frame_units: 2,
    user_one: 6,
    frame_tens: 12,
    drop_frame: 14,
    colour_frame: 15,
    user_two: 16,
    second_units: 22,
    user_three: 26,
    second_tens: 32,
    user_four: 36,
    minute_units: 42,
    user_five: 46,
    minute_tens: 52,
    group_flag_zero: 55,
    user_six: 56,
    hour_units: 62,
    user_seven: 66,
    hour_tens: 72,
    group_flag_one: 74,
    group_flag_two: 75,
    user_eight: 76,
};

/// The field mark at 30 frames, binary group flag 0 at 25.
pub const BIT_35: u32 = 35;

/// Binary group flag 0 at 30 frames, binary group flag 2 at 25.
pub const BIT_55: u32 = 55;

/// Binary group flag 2 at 30 frames, the field mark at 25.
pub const BIT_75: u32 = 75;

/// The check, bit 82 the least significant.
pub const CHECK: Place = Place {
    first: 82,
    width: 8,
};

/// How many sync pairs a line has: one before each eight bits.
pub const SYNC_PAIRS: u32 = 9;

/// A sync pair as a number: the bit 1 and then the bit 0.
pub const SYNC_PAIR: u32 = 1;

/// All sync pairs in their places.
pub const ALL_SYNC_PAIRS: u128 = 0x1_0040_1004_0100_4010_0401;

/// The bits that belong to sync pairs.
pub(crate) const UNDER_SYNC_PAIRS: u128 = 0x3_00c0_300c_0300_c030_0c03;

/// Where the sync pair of this number is, counted from 0: two bits in each ten.
pub(crate) fn sync_pair(number: u32) -> Place
    requires { number < SYNC_PAIRS }
    ensures { result ≡ sync_pair_place number }
{
    Place {
        first: 10 * number,
        width: 2,
    }
}

/// Where the field mark is.
pub(crate) fn field_mark(system: System) -> u32
    ensures within { result < 80 }
    ensures value { result ≡ field_mark_bit system }
{
    match system {
        System::F24 | System::F30 => BIT_35,
        System::F25 => BIT_75,
    }
}

/// The first bit of each field in the system.
pub(crate) fn table(system: System) -> Table
    ensures { result ≡ table_of system }
{
    match system {
        System::F24 | System::F30 => TABLE,
        System::F25 => Table {
            group_flag_zero: BIT_35,
            group_flag_two: BIT_55,
            ..TABLE
        },
    }
}
