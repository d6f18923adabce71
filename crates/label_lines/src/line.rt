//! What a line says, or the column at which it says nothing. Read next: `way`.
ghost use Rattle.std.specs.Prelude.{◌≡◌, ◌+◌, ◌<◌, ◌≤◌, ◌^◌, IsTrue, length, IfOk, IfSome};
ghost use Rattle.std.specs.List.{list_all};
ghost use Rattle.std.specs.Char.{is_ascii_digit};
ghost use Rattle.std.specs.Str.Parse.{digits_value};
ghost use Rattle.tc_address.specs.Label.{IsLabel};
ghost use Rattle.tc_address.specs.Spelling.{address_in, label_in, number_at};
ghost use Rattle.label_lines.specs.Line.{asked, has_label_form, is_number, is_seconds, milliseconds_in};
ghost use Rattle.label_lines.specs.Line.{part_column, read_line, wrong_column};
ghost use Rattle.label_lines.specs.Timebase.{count_of};

use crate::forms::{fitting, fitting_one, label_form};
use crate::timebase::Timebase;
use line_text::are_digits;
use real_time::frame_of;
use tc_address::{Count, Label, label_at, read_text};

/// The label that a line without its newline says, or the column of its first byte that does not fit, from 1.
#[tactic(auto, unfolding(crate::specs::Line::read_line))]
pub fn read_line(base: Timebase, line: &[u8]) -> Result<Label, usize>
    ensures value { result ≡ read_line base line.now }
    ensures valid { IfOk result (λ label. IsLabel label × (label.count ≡ count_of base)) }
{
    match asked(base, line) {
        Some(label) => Ok(label),
        None => Err(wrong_column(base.count(), line)),
    }
}

/// The label that a line says.
fn asked(base: Timebase, line: &[u8]) -> Option<Label>
    ensures value { result ≡ asked base line.now }
    ensures valid { IfSome result (λ label. IsLabel label × (label.count ≡ count_of base)) }
{
    let count = base.count();
    if is_number(line) {
        label_at(count, value_of(line))
    } else if is_seconds(line) {
        let frame = frame_of(base.rate(), u64::from(milliseconds_in(line)));
        label_at(count, frame as u32)
    } else {
        label_in(count, line)
    }
}

/// The label that a line spells.
fn label_in(count: Count, line: &[u8]) -> Option<Label>
    ensures value { result ≡ label_in count line.now }
    ensures valid { IfSome result (λ label. IsLabel label × (label.count ≡ count)) }
{
    match read_text(line, count) {
        Ok(label) => Some(label),
        Err(_) => None,
    }
}

/// Whether a line is a number: one to seven digits.
fn is_number(line: &[u8]) -> bool
    ensures { result ≡ is_number line.now }
{
    !line.is_empty() && line.len() <= 7 && are_digits(line)
}

/// Whether a line is seconds: one to five digits, a point and three digits.
fn is_seconds(line: &[u8]) -> bool
    ensures { result ≡ is_seconds line.now }
{
    let length = line.len();
    length >= 5
        && length <= 9
        && are_digits(&line[..length - 4])
        && line[length - 4] == b'.'
        && are_digits(&line[length - 3..])
}

/// The milliseconds of seconds with three decimals.
fn milliseconds_in(line: &[u8]) -> u32
    requires { IsTrue (is_seconds line.now) }
    ensures value { result ≡ milliseconds_in line.now }
    ensures most { result < 100_000_000 }
{
    let point = line.len() - 4;
    1000 * value_of(&line[..point]) + value_of(&line[point + 1..])
}

/// The number that at most seven digits write.
fn value_of(digits: &[u8]) -> u32
    requires few { length digits.now ≤ 7 }
    requires digits { IsTrue (list_all is_ascii_digit digits.now) }
    ensures value { result ≡ digits_value 10 digits.now }
    ensures most { result < 10 ^ length digits.now }
{
    let mut value = 0;
    for digit in digits {
        value = 10 * value + u32::from(digit - b'0');
    }
    value
}

/// The column of the first byte that does not fit, from 1, in a line that says no label.
pub fn wrong_column(count: Count, line: &[u8]) -> usize
    ensures { result ≡ wrong_column count line.now }
{
    if is_number(line) {
        1
    } else if is_seconds(line) {
        1
    } else if has_label_form(count, line) {
        part_column(line)
    } else {
        1 + fitting_one(count, line)
    }
}

/// Whether a line has the form of a label of the count.
fn has_label_form(count: Count, line: &[u8]) -> bool
    ensures value { result ≡ has_label_form count line.now }
    ensures eleven { IsTrue result → length line.now ≡ 11 }
{
    line.len() == 11 && fitting(label_form(count).as_bytes(), line) == 11
}

/// The column of the part of eleven bytes that is too great, or that is dropped.
fn part_column(line: &[u8]) -> usize
    requires { length line.now ≡ 11 }
    ensures { (count : Count) → result ≡ part_column (address_in count line.now) }
{
    if number_at(line, 0) >= 24 {
        1
    } else if number_at(line, 3) >= 60 {
        4
    } else if number_at(line, 6) >= 60 {
        7
    } else {
        10
    }
}

/// The number of the two digits from a place on.
fn number_at(line: &[u8], place: usize) -> u32
    requires { place + 1 < length line.now }
    ensures { result ≡ number_at line.now place }
{
    10 * u32::from(line[place].saturating_sub(b'0'))
        + u32::from(line[place + 1].saturating_sub(b'0'))
}
