//! A number that is written in digits. Read next: `value`.
ghost use Rattle.std.specs.Prelude.{◌≡◌, ◌≤◌, IfSome};
ghost use Rattle.forms.specs.Number.{between, is_number, number_spelled};

use line_text::are_digits;

/// One to twenty digits, as a number below 2^64.
#[tactic(auto, unfolding(crate::specs::Number::number_spelled))]
pub(crate) fn number_spelled(word: &str) -> Option<u64>
    ensures { result ≡ number_spelled word.now }
{
    if is_number(word.as_bytes()) {
        word.parse().ok()
    } else {
        None
    }
}

fn is_number(digits: &[u8]) -> bool
    ensures { result ≡ is_number digits.now }
{
    !digits.is_empty() && digits.len() <= 20 && are_digits(digits)
}

/// A number of this range, in which no number passes a `u32`.
#[tactic(auto, unfolding(crate::specs::Number::between))]
pub(crate) fn between(least: u32, greatest: u32, word: &str) -> Option<u32>
    ensures value { result ≡ between least greatest word.now }
    ensures range { IfSome result (λ n. (least ≤ n) × (n ≤ greatest)) }
{
    let number = number_spelled(word)?;
    if u64::from(least) <= number && number <= u64::from(greatest) {
        Some(number as u32)
    } else {
        None
    }
}
