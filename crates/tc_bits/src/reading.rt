//! Reading the fields of a word from their places. Read next: `raw`.

ghost use Rattle.std.specs.Prelude.{◌≡◌, ◌<◌, IfOk, IfErr, Some, true};
ghost use Rattle.tc_bits.specs.Fault.{first_field_fault};
ghost use Rattle.tc_bits.specs.Fields.{FieldValues, Says};
ghost use Rattle.tc_bits.specs.Reading.{flags_in, raw_in, user_in};
ghost use Rattle.tc_bits.specs.Register.{is_set};
ghost use Rattle.tc_bits.specs.Table.{IsTable, is_table, place};

use crate::checking::check_fields;
use crate::fault::FieldFault;
use crate::fields::Fields;
use crate::flags::Flags;
use crate::raw::RawFields;
use crate::register::get_field;
use crate::table::Table;
use crate::user_bits::UserBits;
use tc_address::System;

/// Whether this bit is set.
#[inline(always)]
pub fn is_set_at(bits: u128, number: u32) -> bool
    requires { number < 128 }
    ensures { result ≡ is_set (place number 1) bits }
{
    get_field(bits, number, 1) == 1
}

/// The flags in the bits.
#[inline(always)]
fn flags_at(table: &Table, bits: u128) -> Flags
    requires { IsTable table.now }
    ensures { result ≡ flags_in table.now bits }
{
    Flags {
        drop_frame: is_set_at(bits, table.drop_frame),
        colour_frame: is_set_at(bits, table.colour_frame),
        group_flag_zero: is_set_at(bits, table.group_flag_zero),
        group_flag_one: is_set_at(bits, table.group_flag_one),
        group_flag_two: is_set_at(bits, table.group_flag_two),
    }
}

/// The user bits in the bits.
#[inline(always)]
fn user_at(table: &Table, bits: u128) -> UserBits
    requires { IsTable table.now }
    ensures { result ≡ user_in table.now bits }
{
    UserBits::new(
        get_field(bits, table.user_one, 4)
            + get_field(bits, table.user_two, 4) * (1 << 4)
            + get_field(bits, table.user_three, 4) * (1 << 8)
            + get_field(bits, table.user_four, 4) * (1 << 12)
            + get_field(bits, table.user_five, 4) * (1 << 16)
            + get_field(bits, table.user_six, 4) * (1 << 20)
            + get_field(bits, table.user_seven, 4) * (1 << 24)
            + get_field(bits, table.user_eight, 4) * (1 << 28),
    )
}

/// What is in the places of the fields, whether or not it is an address.
#[inline(always)]
fn raw_at(table: &Table, bits: u128) -> RawFields
    requires { IsTable table.now }
    ensures { result ≡ raw_in table.now bits }
{
    RawFields {
        frame_units: get_field(bits, table.frame_units, 4),
        frame_tens: get_field(bits, table.frame_tens, 2),
        second_units: get_field(bits, table.second_units, 4),
        second_tens: get_field(bits, table.second_tens, 3),
        minute_units: get_field(bits, table.minute_units, 4),
        minute_tens: get_field(bits, table.minute_tens, 3),
        hour_units: get_field(bits, table.hour_units, 4),
        hour_tens: get_field(bits, table.hour_tens, 2),
        flags: flags_at(table, bits),
        user: user_at(table, bits),
    }
}

/// The fields in the places of the table, or their first fault.
#[inline(always)]
pub fn fields_at(system: System, table: &Table, bits: u128) -> Result<Fields, FieldFault>
    requires { is_table table.now ≡ true }
    ensures reads { IfOk result (Says system (raw_in table.now bits)) }
    ensures only { (fields : FieldValues) → Says system (raw_in table.now bits) fields → result ≡ Ok fields }
    ensures refuses { IfErr result (λ fault. first_field_fault system (raw_in table.now bits) ≡ Some fault) }
{
    check_fields(system, &raw_at(table, bits))
}
