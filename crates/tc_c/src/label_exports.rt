//! The functions of frame addresses that C calls. Read next: `word`.
ghost use Rattle.std.specs.Prelude.{◌≡◌, ◌≤◌, ◌<◌, Some, slice_get, true, false};
ghost use Rattle.tc_address.specs.declared.count.Count.{Count};
ghost use Rattle.tc_address.specs.Label.{Address, labels};
ghost use Rattle.tc_address.specs.Numbering.{day_length, number_of, step};
ghost use Rattle.tc_c.specs.CEvent.{count_number};
ghost use Rattle.tc_c.specs.CLabel.{MeansLabel};

use crate::label::{TcLabel, count_of};
use tc_address::{advance, day_labels, label_at, number};

/// How many labels a day of the count has, and 0 where the number is none of a count.
#[unsafe(no_mangle)]
pub extern "C" fn tc_day_labels(count: u32) -> u32
    ensures day { (c : Count) → count_number c ≡ count → result ≡ day_length c }
    ensures none { 4 ≤ count → result ≡ 0 }
{
    match count_of(count) {
        Some(count) => day_labels(count),
        None => 0,
    }
}

/// How many labels stand before this one in its day, where the numbers mean one, and tells whether they do.
#[unsafe(no_mangle)]
pub extern "C" fn tc_label_number(label: &TcLabel, place: &mut u32) -> bool
    ensures number { (a : Address) → MeansLabel label.now a → (result ≡ true) × (place.new ≡ number_of a) }
    ensures means { result ≡ true → (a : Address) × MeansLabel label.now a }
    ensures refused { result ≡ false → place.new ≡ place.old }
{
    match label.meaning() {
        Some(label) => {
            *place = number(&label);
            true
        }
        None => false,
    }
}

/// The label before which so many stand in the day of the count, where there is one, and tells whether there is.
#[unsafe(no_mangle)]
pub extern "C" fn tc_label_at(count: u32, place: u32, label: &mut TcLabel) -> bool
    ensures label { (c : Count) (a : Address) → count_number c ≡ count → slice_get (labels c) place ≡ Some a
        → (result ≡ true) × MeansLabel label.new a }
    ensures means { result ≡ true → (c : Count) × (count_number c ≡ count) × (place < day_length c) }
    ensures refused { result ≡ false → label.new ≡ label.old }
{
    let Some(count) = count_of(count) else {
        return false;
    };
    match label_at(count, place) {
        Some(found) => {
            *label = TcLabel::numbers_of(&found);
            true
        }
        None => false,
    }
}

/// Moves the label by so many labels, back where `steps` is negative, where the numbers mean one, and tells
/// whether they do. The day begins again at its end.
#[unsafe(no_mangle)]
pub extern "C" fn tc_label_advance(label: &mut TcLabel, steps: i64) -> bool
    ensures label { (a : Address) → MeansLabel label.old a → (result ≡ true) × MeansLabel label.new (step a steps) }
    ensures means { result ≡ true → (a : Address) × MeansLabel label.old a }
    ensures refused { result ≡ false → label.new ≡ label.old }
{
    match label.meaning() {
        Some(from) => {
            *label = TcLabel::numbers_of(&advance(&from, steps));
            true
        }
        None => false,
    }
}
