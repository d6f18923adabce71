//! The number of a label in the list of its day, and the label of a number. Read next: `drop_frame`.
ghost use Rattle.std.specs.Prelude.{◌≡◌, ◌+◌, ◌*◌, ◌%◌, ◌<◌, ◌≤◌, ◌↔◌, length, slice_get, IfSome, IsNone};
ghost use Rattle.tc_address.specs.Label.{labels, IsLabel};
ghost use Rattle.tc_address.specs.Numbering.{day_length, number_of, step};

use crate::circle::moved;
use crate::count::{Count, system_of};
use crate::drop_frame::{dropped_before, dropped_until};
use crate::label::Label;
use crate::system::rate;

/// The subframes of a frame.
const SUBFRAMES: u32 = 80;

/// How many labels a day has.
#[tactic(auto, using(crate::proofs::DayInOrder::length_labels))]
pub fn day_labels(count: Count) -> u32
    ensures counted { result ≡ length (labels count) }
    ensures value { result ≡ day_length count }
    ensures most { result ≤ 2_592_000 }
    ensures some { 2 ≤ result }
{
    match count {
        Count::C24 => 2_073_600,
        Count::C25 => 2_160_000,
        Count::C30 => 2_592_000,
        Count::Drop30 => 2_589_408,
    }
}

/// How many subframes a day has, which are eightieths of a frame.
pub fn day_subframes(count: Count) -> u32
    ensures counted { result ≡ 80 * length (labels count) }
    ensures value { result ≡ 80 * day_length count }

    // A day of subframes is a circle that `shortest` takes.
    ensures most { result ≤ 207_360_000 }
    ensures some { 2 ≤ result }
    ensures even { result % 2 ≡ 0 }
{
    SUBFRAMES * day_labels(count)
}

/// How many labels of the count come before the label in its day.
#[tactic(auto, using(crate::proofs::OneNumber::number_of_place, crate::proofs::OneNumber::get_number_of))]
pub fn number(label: &Label) -> u32
    ensures before { result ≡ number_of label.now }
    ensures place { slice_get (labels label.now.count) result ≡ Some label.now }
    ensures below { result < day_length label.now.count }
    ensures most { result < 2_592_000 }
    ensures valid { IsLabel label.now }
{
    let minutes = 60 * label.hours() + label.minutes();
    let seconds = 60 * minutes + label.seconds();
    let count = label.count();
    rate(system_of(count)) * seconds + label.frames() - dropped_before(count, minutes)
}

/// The label of a number of the day.
#[tactic(auto, using(crate::proofs::OneNumber::get_labels, crate::proofs::OneNumber::is_label_with))]
fn label_of(count: Count, n: u32) -> Label
    requires { n < day_length count }
    ensures label { slice_get (labels count) n ≡ Some result }
    ensures valid { IsLabel result }
    ensures count { result.count ≡ count }
{
    let frames = n + dropped_until(count, n);
    let rate = rate(system_of(count));
    let seconds = frames / rate;
    let minutes = seconds / 60;
    Label::from_parts(
        count,
        minutes / 60,
        minutes % 60,
        seconds % 60,
        frames % rate,
    )
}

/// The label of number n, if the day has more than n labels.
#[tactic(auto, using(crate::proofs::OneNumber::get_labels_past, crate::proofs::OneNumber::number_of_get))]
pub fn label_at(count: Count, n: u32) -> Option<Label>
    ensures label { result ≡ slice_get (labels count) n }
    ensures none { IsNone result ↔ (day_length count ≤ n) }
    ensures number { IfSome result (λ label. (number_of label ≡ n) × (label.count ≡ count) × IsLabel label) }
{
    if n < day_labels(count) {
        Some(label_of(count, n))
    } else {
        None
    }
}

/// The label `steps` labels further, or back if `steps` is negative. The day begins again at its
/// end.
pub fn advance(label: &Label, steps: i64) -> Label
    ensures label { result ≡ step label.now steps }
    ensures valid { IsLabel result }
    ensures count { result.count ≡ label.now.count }
{
    let count = label.count();
    label_of(count, moved(day_labels(count), number(label), steps))
}
