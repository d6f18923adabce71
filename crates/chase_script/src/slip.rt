//! The slip of a row. Read next: `fault`.
ghost use Rattle.std.specs.Prelude.{◌≡◌, ◌≤◌, length, IfOk, IfSome, unsigned_abs, option_map, neg_ℤ, pos, true};
ghost use Rattle.std.specs.Char.{is_ascii_digit};
ghost use Rattle.std.specs.List.{list_all};
ghost use Rattle.std.specs.Str.Parse.{digits_value};
ghost use Rattle.chase_script.specs.Script.{length_in, slip_in};
ghost use Rattle.chase_script.specs.KeptRow.{is_length};

use crate::column::Column;
use line_text::are_digits;

/// A number of subframes: nothing for 0, else one to seven digits up to a million, behind a `-` if
/// the transport falls back.
pub(crate) fn slip_in(field: &[u8]) -> Result<i32, Column>
    ensures value { result ≡ slip_in field.now }
    ensures fits { IfOk result (λ slip. unsigned_abs slip ≤ 1_000_000) }
{
    match field {
        [] => Ok(0),
        [b'-', digits @ ..] => length_back(digits).ok_or(Column::Slip),
        digits => length_in(digits).ok_or(Column::Slip),
    }
}

/// The length as a slip back, 0 or below.
fn length_back(digits: &[u8]) -> Option<i32>
    ensures value { result ≡ option_map (λ length. neg_ℤ (pos length)) (length_in digits.now) }
    ensures fits { IfSome result (λ length. unsigned_abs length ≤ 1_000_000) }
{
    Some(-length_in(digits)?)
}

fn length_in(digits: &[u8]) -> Option<i32>
    ensures value { result ≡ option_map pos (length_in digits.now) }
    ensures fits { IfSome result (λ length. unsigned_abs length ≤ 1_000_000) }
{
    if !is_length(digits) {
        return None;
    }
    let length = value_of(digits);
    if length <= 1_000_000 {
        Some(length as i32)
    } else {
        None
    }
}

fn is_length(digits: &[u8]) -> bool
    ensures { result ≡ is_length digits.now }
{
    !digits.is_empty() && digits.len() <= 7 && are_digits(digits)
}

// The number that digits write.
fn value_of(digits: &[u8]) -> u32
    requires all { list_all is_ascii_digit digits.now ≡ true }
    requires few { length digits.now ≤ 7 }
    ensures { result ≡ digits_value 10 digits.now }
{
    let mut value = 0;
    for digit in digits {
        value = 10 * value + u32::from(digit - b'0');
    }
    value
}
