//! The tests of the tolerance, each of what comes after some cells. Read next: `cell`.
ghost use Rattle.std.specs.Prelude.{◌≡◌, ◌↔◌, ◌+◌, ◌<◌, ◌^◌, IsTrue};
ghost use Rattle.biphase.specs.declared.cell.Cell.TheVariants.{One};
ghost use Rattle.biphase.specs.declared.profile.TheConstants.{ROUGH};
ghost use Rattle.biphase.specs.Profile.{IsBetween, IsWithin};
ghost use Rattle.biphase.specs.Latest.{Latest};
ghost use Rattle.biphase.specs.Tolerance.{reference_of, FollowsSum, IsFirstHalf};
ghost use Rattle.biphase.specs.Chain.{IsNextZero, IsNextOne};

use crate::profile::{
    NORMAL, Profile, ROUGH, Ratio, Tolerance, WORN, is_at_least, is_at_most, is_within,
};

/// Whether an interval of `x` ticks can be a zero after the latest cells, of which
/// `reference` is the number that the profile compares with.
// The profile is chosen in each of the three tests, and not once for all of them: after the choice the numbers are
// constants, and the tests cost a third less.
#[inline(always)]
pub fn is_zero(profile: Profile, reference: u32, x: u32) -> bool
    ensures { (latest : Latest) → reference_of profile latest ≡ reference
        → IsTrue result ↔ IsNextZero profile latest x }
{
    match profile {
        Profile::Rough => is_cell_of_sum(u64::from(reference), u64::from(x)),
        Profile::Worn => next_zero(WORN, reference, x),
        Profile::Normal => next_zero(NORMAL, reference, x),
    }
}

/// Whether an interval of `x` ticks can be the first half of a one after the latest cells, of which
/// `reference` is the number that the profile compares with.
#[inline(always)]
pub fn may_begin_one(profile: Profile, reference: u32, x: u32) -> bool
    ensures { (latest : Latest) → reference_of profile latest ≡ reference
        → IsTrue result ↔ IsFirstHalf profile latest x }
{
    match profile {
        Profile::Rough => is_half_of_sum(u64::from(reference), u64::from(x)),
        Profile::Worn => first_half(WORN, reference, x),
        Profile::Normal => first_half(NORMAL, reference, x),
    }
}

/// Whether two intervals of `x` and `y` ticks can be a one after the latest cells, of which
/// `reference` is the number that the profile compares with.
#[inline(always)]
pub fn is_one(profile: Profile, reference: u32, x: u32, y: u32) -> bool
    ensures { (latest : Latest) → reference_of profile latest ≡ reference
        → IsTrue result ↔ IsNextOne profile latest x y }
{
    match profile {
        Profile::Rough => is_one_of_sum(u64::from(reference), u64::from(x), u64::from(y)),
        Profile::Worn => next_one(WORN, reference, x, y),
        Profile::Normal => next_one(NORMAL, reference, x, y),
    }
}

fn next_zero(tolerance: Tolerance, c: u32, x: u32) -> bool
    ensures { IsTrue result ↔ IsWithin tolerance.cell x c c }
{
    let (cell, next) = (u64::from(c), u64::from(x));
    is_within(tolerance.cell, next, cell, cell)
}

fn first_half(tolerance: Tolerance, c: u32, x: u32) -> bool
    ensures { IsTrue result ↔ IsBetween tolerance.least_half tolerance.greatest_half x c }
{
    lies_between(
        tolerance.least_half,
        tolerance.greatest_half,
        u64::from(x),
        u64::from(c),
    )
}

fn next_one(tolerance: Tolerance, c: u32, x: u32, y: u32) -> bool
    ensures { IsTrue result ↔ (IsWithin tolerance.cell (x + y) c c × IsWithin tolerance.half x y (x + y)) }
{
    let (length, first, second) = (u64::from(c), u64::from(x), u64::from(y));
    let next = first + second;
    is_within(tolerance.cell, next, length, length)
        && is_within(tolerance.half, first, second, next)
}

/// Whether `a` ticks are at least and at most these parts of `b` ticks.
fn lies_between(least: Ratio, greatest: Ratio, a: u64, b: u64) -> bool
    requires first { a < 2 ^ 40 }
    requires second { b < 2 ^ 40 }
    ensures { IsTrue result ↔ IsBetween least greatest a b }
{
    is_at_least(least, a, b) && is_at_most(greatest, a, b)
}

/// Whether a cell of `length` ticks can follow four cells of this sum.
fn is_cell_of_sum(sum: u64, length: u64) -> bool
    requires first { sum < 2 ^ 40 }
    requires second { length < 2 ^ 40 }
    ensures { IsTrue result ↔ IsBetween ROUGH.least_cell ROUGH.greatest_cell length sum }
{
    lies_between(ROUGH.least_cell, ROUGH.greatest_cell, length, sum)
}

/// Whether an interval of `x` ticks can be a half of a one that follows four cells of this sum.
fn is_half_of_sum(sum: u64, x: u64) -> bool
    requires first { sum < 2 ^ 40 }
    requires second { x < 2 ^ 40 }
    ensures { IsTrue result ↔ IsBetween ROUGH.least_half ROUGH.greatest_half x sum }
{
    lies_between(ROUGH.least_half, ROUGH.greatest_half, x, sum)
}

/// Whether intervals of `x` and `y` ticks can be a one that follows four cells of this sum.
fn is_one_of_sum(sum: u64, x: u64, y: u64) -> bool
    requires first { sum < 2 ^ 40 }
    requires second { x < 2 ^ 32 }
    requires third { y < 2 ^ 32 }
    ensures { IsTrue result ↔ FollowsSum ROUGH sum (One x y) }
{
    is_half_of_sum(sum, x) && is_half_of_sum(sum, y) && is_cell_of_sum(sum, x + y)
}
