//! The end of a cell on a path. Read next: `follow`.
ghost use Rattle.std.specs.Prelude.{◌≡◌, ◌+◌, ◌^◌, ◌<◌, ◌≤◌};
ghost use Rattle.cell_path.specs.KeptMarks.{point_before};

use crate::cell::{Cell, Sign, Way};
use crate::lengths::PLACES;
use crate::mark::StepMarks;

/// The end of a cell: how many steps ago, the place of its length, and its sign.
#[derive(Clone, Copy)]
pub struct Point {
    pub ago: usize,
    pub place: usize,
    pub sign: Sign,
}

/// A cell, and where the one before it ends. Before the first there is none.
#[derive(Clone, Copy)]
pub struct Back {
    pub cell: Cell,
    pub before: Option<Point>,
}

/// Where the cell before ends, which has to end with this sign.
pub(crate) fn point_before(
    way: Way,
    ago: usize,
    place: usize,
    sign: Sign,
    there: &StepMarks,
) -> Point
    requires place { place < 45 }
    requires best { there.now.best_place < 45 }
    ensures point { result ≡ point_before way ago place sign there.now }
    ensures place { result.place < 45 }
    ensures ago { result.ago ≡ ago }
{
    let (place, sign) = match way {
        Way::Same => (place, sign),
        Way::Shorter => (place.saturating_sub(1), sign),
        Way::Longer => ((place + 1).min(PLACES - 1), sign),
        Way::Jump => (usize::from(there.best_place), there.best_sign),
    };
    Point { ago, place, sign }
}
