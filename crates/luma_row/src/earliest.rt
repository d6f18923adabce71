//! From the place with the deepest falls to the earliest at which all sync pairs fall. Read next: `cells`.
ghost use Rattle.std.specs.Prelude.{◌≡◌, ◌^◌, ◌<◌, ◌≤◌};
ghost use Rattle.luma_row.specs.Earliest.{all_fall, back, earliest, falls, falls_enough};
ghost use Rattle.luma_row.specs.KeptLight.{AreSums};
ghost use Rattle.luma_row.specs.KeptPlace.{IsInRow, IsNear};
ghost use Rattle.luma_row.specs.Light.{IsRow};

use crate::light::{EVEN, Sums};
use crate::place::{PAIRS, Place};

/// How many places are tried, a cell apart. A 1 and a 0 fit into ten bits at most eight cells behind the sync pair, so
/// these are eight cells later, the place itself, and eight cells earlier.
const PLACES: u32 = 17;

/// The place of a word eight cells later, and from there so many back.
fn back(place: Place, cells: u32) -> Place
    requires place { IsInRow place }
    requires cells { cells < 17 }
    ensures back { result ≡ back place cells }
    ensures place { IsNear result }
{
    let apart = place.last - place.first;
    let less = cells * apart / 80;
    Place {
        first: (place.first + apart / 10).saturating_sub(less),
        last: place.last + apart / 10 - less,
    }
}

/// The nine falls together, and nothing if light falls from behind.
fn falls(row: &[u8], sums: &Sums, place: Place) -> u32
    requires row { IsRow row.now }
    requires sums { AreSums row.now sums.now }
    requires place { IsInRow place }
    ensures { result ≡ falls row.now place }
{
    place.score(row, sums).saturating_sub(9 * EVEN)
}

/// Whether a pair falls half as much as nine do in the mean, whose sum this is.
fn falls_enough(row: &[u8], sums: &Sums, sum: u32, place: Place, pair: u32) -> bool
    requires row { IsRow row.now }
    requires sums { AreSums row.now sums.now }
    requires place { IsNear place }
    requires pair { pair < 9 }
    ensures { result ≡ falls_enough row.now sum place pair }
{
    sum <= 18 * place.pair_fall(row, sums, pair).saturating_sub(EVEN)
}

/// Whether all pairs of a place do.
fn all_fall(row: &[u8], sums: &Sums, sum: u32, place: Place) -> bool
    requires row { IsRow row.now }
    requires sums { AreSums row.now sums.now }
    requires place { IsNear place }
    ensures { result ≡ all_fall row.now sum place }
{
    for pair in 0..PAIRS {
        if !falls_enough(row, sums, sum, place, pair) {
            return false;
        }
    }
    true
}

/// The earliest place at which all pairs fall, from eight cells before the one with the deepest falls to eight behind.
pub(crate) fn earliest(row: &[u8], sums: &Sums, deepest: Place) -> Place
    requires row { IsRow row.now }
    requires sums { AreSums row.now sums.now }
    requires place { IsInRow deepest }
    ensures earliest { result ≡ earliest row.now deepest }
    ensures place { IsNear result }
{
    let sum = falls(row, sums, deepest);
    let mut best = deepest;
    for cells in 0..PLACES {
        let other = back(deepest, cells);
        if all_fall(row, sums, sum, other) {
            best = other;
        }
    }
    best
}
