//! Writing the fields of a word in their places.

ghost use Rattle.std.specs.Prelude.{◌≡◌, ◌*◌, ◌^◌, ◌<◌, ◌≤◌, true};
ghost use Rattle.tc_bits.specs.Row.{sum_of};
ghost use Rattle.tc_bits.specs.Table.{IsTable, address_row, digit, flag_row, is_table, row_of, user_row};

use crate::fields::Fields;
use crate::flags::Flags;
use crate::register::get_field;
use crate::table::Table;
use tc_address::Label;

/// The register that holds the number, of four bits at most, from this bit on, and zeros elsewhere.
fn holding(first: u32, number: u32) -> u128
    requires place { first ≤ 99 }
    requires fits { number < 16 }
    ensures within { result < 2 ^ 103 }
    ensures value { result ≡ number * 2 ^ first }
{
    (number as u128) << first
}

/// The digits of the address in their places.
fn address_bits(table: &Table, label: &Label) -> u128
    requires { IsTable table.now }
    ensures within { result < 2 ^ 106 }
    ensures sum { result ≡ sum_of (address_row table.now label.now) }
{
    holding(table.frame_units, label.frames() % 10)
        + holding(table.frame_tens, label.frames() / 10)
        + holding(table.second_units, label.seconds() % 10)
        + holding(table.second_tens, label.seconds() / 10)
        + holding(table.minute_units, label.minutes() % 10)
        + holding(table.minute_tens, label.minutes() / 10)
        + holding(table.hour_units, label.hours() % 10)
        + holding(table.hour_tens, label.hours() / 10)
}

/// The register that holds the flag in this bit, and zeros elsewhere.
fn holding_flag(first: u32, flag: bool) -> u128
    requires { first ≤ 99 }
    ensures within { result < 2 ^ 103 }
    ensures value { result ≡ digit flag * 2 ^ first }
{
    holding(first, u32::from(flag))
}

/// The flags in their places.
fn flag_bits(table: &Table, flags: Flags) -> u128
    requires { IsTable table.now }
    ensures within { result < 2 ^ 106 }
    ensures sum { result ≡ sum_of (flag_row table.now flags) }
{
    holding_flag(table.drop_frame, flags.drop_frame)
        + holding_flag(table.colour_frame, flags.colour_frame)
        + holding_flag(table.group_flag_zero, flags.group_flag_zero)
        + holding_flag(table.group_flag_one, flags.group_flag_one)
        + holding_flag(table.group_flag_two, flags.group_flag_two)
}

/// The user groups in their places.
fn user_group_bits(table: &Table, groups: u32) -> u128
    requires { IsTable table.now }
    ensures within { result < 2 ^ 106 }
    ensures sum { result ≡ sum_of (user_row table.now groups) }
{
    let groups = groups as u128;
    holding(table.user_one, get_field(groups, 0, 4))
        + holding(table.user_two, get_field(groups, 4, 4))
        + holding(table.user_three, get_field(groups, 8, 4))
        + holding(table.user_four, get_field(groups, 12, 4))
        + holding(table.user_five, get_field(groups, 16, 4))
        + holding(table.user_six, get_field(groups, 20, 4))
        + holding(table.user_seven, get_field(groups, 24, 4))
        + holding(table.user_eight, get_field(groups, 28, 4))
}

/// The fields in the places of the table, and zeros elsewhere.
pub fn field_bits(table: &Table, fields: &Fields) -> u128
    requires { is_table table.now ≡ true }
    ensures within { result < 2 ^ 108 }
    ensures sum { result ≡ sum_of (row_of table.now fields.now) }
    ensures eight { fields.now.user < 2 ^ 32 }
{
    address_bits(table, &fields.label())
        + flag_bits(table, fields.flags())
        + user_group_bits(table, fields.user().groups())
}
