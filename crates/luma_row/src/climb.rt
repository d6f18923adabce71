//! From the coarse place to the place with the deepest falls. Read next: `earliest`.
ghost use Rattle.std.specs.Prelude.{◌≡◌, ℕ, ◌+◌, ◌*◌, ◌/◌, ◌%◌, ◌^◌, ◌<◌, ◌≤◌, length};
ghost use Rattle.luma_row.specs.Climb.{moved, neighbour, worth, Climbs, IsPlace};
ghost use Rattle.luma_row.specs.KeptBest.{IsBestOf};
ghost use Rattle.luma_row.specs.KeptLight.{AreSums};
ghost use Rattle.luma_row.specs.KeptPlace.{IsInRow};
ghost use Rattle.luma_row.specs.Light.{IsRow};
ghost use Rattle.luma_row.specs.Place.{score};

use crate::best::Best;
use crate::light::Sums;
use crate::place::Place;
use crate::width::{grain, width_of};

/// How often a place may move with one step.
const MOVES: u32 = 6;

/// How many steps there are: the first of two grains, each further one half of the one before.
const STEPS: u32 = 8;

/// An end that stays, goes back or goes on.
fn moved(place: u32, step: u32, number: u32) -> u32
    requires place { place < 2 ^ 17 }
    requires step { step < 2 ^ 10 }
    ensures moved { result ≡ moved place step number }
    ensures near { result < 2 ^ 18 }
{
    match number {
        0 => place,
        1 => place.saturating_sub(step),
        _ => place + step,
    }
}

/// One of the nine neighbours of a place.
fn neighbour(place: Place, step: u32, number: u32) -> Place
    requires place { IsInRow place }
    requires step { step < 2 ^ 10 }
    ensures neighbour { result ≡ neighbour place step number }
    ensures near { (result.first < 2 ^ 18) × (result.last < 2 ^ 18) }
{
    Place {
        first: moved(place.first, step, number / 3),
        last: moved(place.last, step, number % 3),
    }
}

/// What a neighbour is worth.
fn worth(row: &[u8], sums: &Sums, place: Place, step: u32, number: u32) -> u32
    requires row { IsRow row.now }
    requires sums { AreSums row.now sums.now }
    requires place { IsInRow place }
    requires step { step < 2 ^ 10 }
    ensures { result ≡ worth row.now place step number }
{
    if number == 0 {
        return place.score(row, sums);
    }
    let other = neighbour(place, step, number);
    if other.fits(row) {
        other.score(row, sums)
    } else {
        0
    }
}

/// The first of the best neighbours, and the sum of its falls. Of the place itself the sum is known.
fn best_neighbour(row: &[u8], sums: &Sums, place: Place, step: u32, own: u32) -> Best
    requires row { IsRow row.now }
    requires sums { AreSums row.now sums.now }
    requires place { IsInRow place }
    requires step { step < 2 ^ 10 }
    requires own { own ≡ score row.now place }
    ensures { IsBestOf 9 (worth row.now place step) result.sum result.number }
{
    let mut best = Best::first(own);
    if step == 0 {
        return best;
    }
    for number in 1..9u32 {
        best = best.or(worth(row, sums, place, step, number), number);
    }
    best
}

/// A place, and the sum of its falls.
#[derive(Clone, Copy)]
struct Scored {
    place: Place,
    score: u32,
}

/// To the best neighbour, and again, six times.
fn climb(row: &[u8], sums: &Sums, from: Scored, step: u32) -> Scored
    requires row { IsRow row.now }
    requires sums { AreSums row.now sums.now }
    requires place { IsInRow from.place }
    requires score { from.score ≡ score row.now from.place }
    requires step { step < 2 ^ 10 }
    ensures climbs { Climbs row.now step 6 from.place result.place }
    ensures place { IsInRow result.place }
    ensures score { result.score ≡ score row.now result.place }
{
    let mut place = from.place;
    let mut own = from.score;
    for turn in 0..MOVES {
        let best = best_neighbour(row, sums, place, step, own);
        let number = best.number;
        if number == 0 {
            return Scored { place, score: own };
        }
        place = neighbour(place, step, number);
        own = best.sum;
    }
    Scored { place, score: own }
}

/// In eight steps from the coarse place to the place with the deepest falls.
pub(crate) fn refine(row: &[u8], sums: &Sums, coarse: Place) -> Place
    requires row { IsRow row.now }
    requires sums { AreSums row.now sums.now }
    requires coarse { IsInRow coarse }
    ensures refines { IsPlace row.now coarse result }
    ensures place { IsInRow result }
{
    let mut at = Scored {
        place: coarse,
        score: coarse.score(row, sums),
    };
    let mut step = 2 * grain(width_of(row));
    for turn in 0..STEPS {
        at = climb(row, sums, at, step);
        step /= 2;
    }
    at.place
}
