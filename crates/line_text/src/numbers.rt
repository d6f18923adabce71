//! The numbers of a line, and the test of digits that are read. Read next: `named`.
ghost use Rattle.std.specs.Prelude.{◌≡◌, ◌+◌, ◌≤◌, ◌<◌, ◌^◌, ◌++◌, length, decimal};
ghost use Rattle.std.specs.Char.{is_ascii_digit};
ghost use Rattle.std.specs.Fmt.{signed_decimal};
ghost use Rattle.std.specs.Int.{w32, to_be_bytes};
ghost use Rattle.std.specs.List.{list_all};
ghost use Rattle.arrayvec.specs.ArrayVec.{array_vec_len};
ghost use Rattle.hex.specs.Hex.{encode_lower};
ghost use Rattle.tc_address.specs.Spelling.{two_digits};

use crate::line::{Text, push_bytes};
use itoa::Buffer;
use tc_address::two_digits;

/// Appends a number in decimal digits, without leading zeros.
// Below a hundred million two digits at a time go straight into the line. `itoa` writes them into room of its own
// first: that was 7 of 41 instructions a quarter frame in `mtc-read`, and 3 of 100 a row in `chase`.
pub fn push_number(text: &mut Text, number: u64)
    requires { array_vec_len text.old + length (decimal number) ≤ 128 }
    ensures items { text.new.items ≡ text.old.items ++ decimal number }
    ensures len { array_vec_len text.new ≡ array_vec_len text.old + length (decimal number) }
{
    if number < 100_000_000 {
        push_eight_at_most(text, number as u32);
    } else {
        let mut digits = Buffer::new();
        push_bytes(text, digits.format(number).as_bytes());
    }
}

/// Appends a number of eight digits at most.
#[inline(always)]
#[tactic(auto, using(crate::proofs::Digits::last_four))]
fn push_eight_at_most(text: &mut Text, number: u32)
    requires small { number < 100_000_000 }
    requires room { array_vec_len text.old + length (decimal number) ≤ 128 }
    ensures items { text.new.items ≡ text.old.items ++ decimal number }
    ensures len { array_vec_len text.new ≡ array_vec_len text.old + length (decimal number) }
{
    if number < 10_000 {
        push_four_at_most(text, number);
    } else {
        push_four_at_most(text, number / 10_000);
        push_two(text, number % 10_000 / 100);
        push_two(text, number % 100);
    }
}

/// Appends a number of four digits at most.
#[inline(always)]
#[tactic(auto, using(crate::proofs::Digits::last_two))]
fn push_four_at_most(text: &mut Text, number: u32)
    requires small { number < 10_000 }
    requires room { array_vec_len text.old + length (decimal number) ≤ 128 }
    ensures items { text.new.items ≡ text.old.items ++ decimal number }
    ensures len { array_vec_len text.new ≡ array_vec_len text.old + length (decimal number) }
{
    if number < 100 {
        push_two_at_most(text, number);
    } else {
        push_two_at_most(text, number / 100);
        push_two(text, number % 100);
    }
}

/// Appends a number of two digits at most.
#[inline(always)]
#[tactic(auto, using(crate::proofs::Digits::one_digit, crate::proofs::Digits::both_digits))]
fn push_two_at_most(text: &mut Text, number: u32)
    requires small { number < 100 }
    requires room { array_vec_len text.old + length (decimal number) ≤ 128 }
    ensures items { text.new.items ≡ text.old.items ++ decimal number }
    ensures len { array_vec_len text.new ≡ array_vec_len text.old + length (decimal number) }
{
    if number < 10 {
        text.push(b'0' + number as u8);
    } else {
        push_two(text, number);
    }
}

/// Appends two digits.
#[inline(always)]
fn push_two(text: &mut Text, number: u32)
    requires small { number < 100 }
    requires room { array_vec_len text.old + 2 ≤ 128 }
    ensures items { text.new.items ≡ text.old.items ++ two_digits number }
    ensures len { array_vec_len text.new ≡ array_vec_len text.old + 2 }
{
    push_bytes(text, &two_digits(number));
}

/// Appends a count, a number below 2 to the 40th, in decimal digits: 13 at most.
#[tactic(auto, using(crate::proofs::Digits::digits_of_count))]
pub fn push_count(text: &mut Text, number: u64)
    requires room { array_vec_len text.old + 13 ≤ 128 }
    requires count { number < 2 ^ 40 }
    ensures items { text.new.items ≡ text.old.items ++ decimal number }
    ensures len { array_vec_len text.new ≤ array_vec_len text.old + 13 }
{
    push_number(text, number);
}

/// Appends ticks, a number below 2 to the 60th, in decimal digits: 19 at most.
#[tactic(auto, using(crate::proofs::Digits::digits_of_ticks))]
pub fn push_ticks(text: &mut Text, number: u64)
    requires room { array_vec_len text.old + 19 ≤ 128 }
    requires ticks { number < 2 ^ 60 }
    ensures items { text.new.items ≡ text.old.items ++ decimal number }
    ensures len { array_vec_len text.new ≤ array_vec_len text.old + 19 }
{
    push_number(text, number);
}

/// Appends any number in decimal digits: 20 at most.
#[tactic(auto, using(crate::proofs::Digits::digits_of_any))]
pub fn push_any_number(text: &mut Text, number: u64)
    requires { array_vec_len text.old + 20 ≤ 128 }
    ensures items { text.new.items ≡ text.old.items ++ decimal number }
    ensures len { array_vec_len text.new ≤ array_vec_len text.old + 20 }
{
    push_number(text, number);
}

/// Appends a number in decimal digits, behind a `-` if it is below 0: 11 bytes at most.
pub fn push_signed(text: &mut Text, number: i32)
    requires { array_vec_len text.old + 11 ≤ 128 }
    ensures items { text.new.items ≡ text.old.items ++ signed_decimal number }
    ensures len { array_vec_len text.new ≤ array_vec_len text.old + 11 }
{
    let mut digits = Buffer::new();
    push_bytes(text, digits.format(number).as_bytes());
}

/// Appends a number as eight hexadecimal digits in lower case, the highest first.
pub fn push_hexadecimal(text: &mut Text, number: u32)
    requires { array_vec_len text.old + 8 ≤ 128 }
    ensures items { text.new.items ≡ text.old.items ++ encode_lower (to_be_bytes w32 number) }
    ensures len { array_vec_len text.new ≡ array_vec_len text.old + 8 }
{
    let mut digits = [0; 8];
    let _fits = hex::encode_to_slice(number.to_be_bytes(), &mut digits);
    push_bytes(text, &digits);
}

/// Whether each byte is a decimal digit.
pub fn are_digits(bytes: &[u8]) -> bool
    ensures { result ≡ list_all is_ascii_digit bytes.now }
{
    bytes.iter().all(|byte| byte.is_ascii_digit())
}
