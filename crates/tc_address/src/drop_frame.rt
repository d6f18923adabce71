//! How many addresses drop-frame counting dropped so far, by closed arithmetic. Read next: `circle`.
ghost use Rattle.std.specs.Prelude.{◌≡◌, ◌<◌};
ghost use Rattle.tc_address.specs.DropFrame.{dropped_before, dropped_until};
ghost use Rattle.tc_address.specs.Numbering.{day_length};

use crate::count::Count;

/// The labels of ten minutes of drop-frame counting.
const TEN_MINUTES: u32 = 17_982;

/// The labels of a minute of drop-frame counting that drops two.
const SHORT_MINUTE: u32 = 1_798;

/// How many addresses the count drops before a minute of the day.
pub(crate) fn dropped_before(count: Count, minutes: u32) -> u32
    requires { minutes < 1440 }
    ensures { result ≡ dropped_before count minutes }
{
    match count {
        Count::Drop30 => 2 * (minutes - minutes / 10),
        _ => 0,
    }
}

/// How many addresses the count drops before the label of number n.
pub(crate) fn dropped_until(count: Count, n: u32) -> u32
    requires { n < day_length count }
    ensures { result ≡ dropped_until count n }
{
    match count {
        Count::Drop30 => {
            let tens = n / TEN_MINUTES;
            let minutes = (n % TEN_MINUTES).saturating_sub(2) / SHORT_MINUTE;
            18 * tens + 2 * minutes
        }
        _ => 0,
    }
}
