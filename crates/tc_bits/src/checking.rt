//! From the digits of a word to its fields, or to their first fault. Read next: `fields`, or `fault`.

ghost use Rattle.std.specs.Prelude.{◌≡◌, ◌+◌, ◌*◌, ◌<◌, IfOk, IfErr, Some};
ghost use Rattle.tc_address.specs.declared.system.System.{System};
ghost use Rattle.tc_bits.specs.Fields.{FieldValues, FitsDigits, Says, count_in};
ghost use Rattle.tc_bits.specs.Fault.{first_field_fault};

use crate::fault::FieldFault;
use crate::fields::Fields;
use crate::raw::RawFields;
use tc_address::{Count, Label, System, rate};

/// The count of a word: at 30 frames its drop-frame flag decides it.
fn count_of(system: System, drop_frame: bool) -> Count
    ensures { result ≡ count_in system drop_frame }
{
    match system {
        System::F24 => Count::C24,
        System::F25 => Count::C25,
        System::F30 if drop_frame => Count::Drop30,
        System::F30 => Count::C30,
    }
}

/// The fields that the digits say, or the first fault of them in the order of `FieldFault`.
#[inline(always)]
pub fn check_fields(system: System, raw: &RawFields) -> Result<Fields, FieldFault>
    requires { FitsDigits raw.now }
    ensures reads { IfOk result (Says system raw.now) }
    ensures only { (fields : FieldValues) → Says system raw.now fields → result ≡ Ok fields }
    ensures refuses { IfErr result (λ fault. first_field_fault system raw.now ≡ Some fault) }
{
    let frames = 10 * raw.frame_tens + raw.frame_units;
    let seconds = 10 * raw.second_tens + raw.second_units;
    let minutes = 10 * raw.minute_tens + raw.minute_units;
    let hours = 10 * raw.hour_tens + raw.hour_units;
    if raw.frame_units > 9 {
        return Err(FieldFault::FrameUnits);
    }
    if frames >= rate(system) {
        return Err(FieldFault::Frames);
    }
    if raw.second_units > 9 {
        return Err(FieldFault::SecondUnits);
    }
    if raw.second_tens > 5 {
        return Err(FieldFault::SecondTens);
    }
    if raw.minute_units > 9 {
        return Err(FieldFault::MinuteUnits);
    }
    if raw.minute_tens > 5 {
        return Err(FieldFault::MinuteTens);
    }
    if raw.hour_units > 9 {
        return Err(FieldFault::HourUnits);
    }
    if hours > 23 {
        return Err(FieldFault::Hours);
    }
    let count = count_of(system, raw.flags.drop_frame);
    match Label::new(count, hours, minutes, seconds, frames) {
        Ok(label) => Ok(Fields {
            label,
            flags: raw.flags,
            user: raw.user,
        }),
        Err(_) => Err(FieldFault::DroppedLabel),
    }
}
