//! How well the halves of a cell fit the cells around it. Read next: `gate`.
ghost use Rattle.std.specs.Prelude.{◌≡◌, ◌+◌, ◌*◌, ◌^◌, ◌<◌, ◌≤◌, length};
ghost use Rattle.std.specs.List.{All};
ghost use Rattle.path_front.specs.Fit.{all_far, cell_far, far, is_misfit, square_far, usual};
ghost use Rattle.path_front.specs.Measured.{IsHalf, IsMeasured};

use crate::measured::{Half, Measured};

/// How far the mean sound of a half lies from a level on its side.
fn far(level: u64, half: &Half, length: u32) -> u64
    requires level { level ≤ 2 ^ 15 }
    requires some { 0 < length }
    requires most { length ≤ 96 }
    requires half { IsHalf length half.now }
    ensures value { result ≡ far level half.now length }
    ensures size { result ≤ 2 ^ 16 }
{
    let size = half.sum.unsigned_abs();
    let whole = u64::from(length) * level;
    let apart = if half.sum < 0 {
        size + whole
    } else {
        size.abs_diff(whole)
    };
    apart / u64::from(length)
}

/// The square of it, where none counts for more than that of the level.
fn square_far(level: u64, half: &Half, length: u32) -> u64
    requires level { level ≤ 2 ^ 15 }
    requires some { 0 < length }
    requires most { length ≤ 96 }
    requires half { IsHalf length half.now }
    ensures value { result ≡ square_far level half.now length }
    ensures size { result ≤ 2 ^ 30 }
{
    let near = far(level, half, length).min(level);
    near * near
}

/// Of both halves of some cells.
fn all_far(level: u64, cells: &[Measured]) -> u64
    requires level { level ≤ 2 ^ 15 }
    requires few { length cells.now ≤ 8 }
    requires measured { All IsMeasured cells.now }
    ensures value { result ≡ all_far level cells.now }
    ensures size { result ≤ length cells.now * 2 ^ 31 }
{
    let mut sum = 0;
    for cell in cells {
        sum += square_far(level, &cell.first, cell.length)
            + square_far(level, &cell.second, cell.length);
    }
    sum
}

/// The mean square of the halves around.
pub(crate) fn usual(level: u64, before: &[Measured], behind: &[Measured]) -> u64
    requires level { level ≤ 2 ^ 15 }
    requires some { 0 < length before.now }
    requires few { length before.now ≤ 8 }
    requires few_behind { length behind.now ≤ 8 }
    requires before { All IsMeasured before.now }
    requires behind { All IsMeasured behind.now }
    ensures value { result ≡ usual level before.now behind.now }
    ensures size { result ≤ 2 ^ 40 }
{
    let halves = 2 * (before.len() + behind.len()) as u64;
    (all_far(level, before) + all_far(level, behind)) / halves
}

/// Whether a half of a cell lies too far from the level.
pub(crate) fn is_misfit(level: u64, usual: u64, cell: &Measured) -> bool
    requires level { level ≤ 2 ^ 15 }
    requires usual { usual ≤ 2 ^ 40 }
    requires cell { IsMeasured cell.now }
    ensures { result ≡ is_misfit level usual cell.now }
{
    let first = far(level, &cell.first, cell.length);
    let second = far(level, &cell.second, cell.length);
    let most = first.max(second);
    12 * usual + 2 * (level * level) < most * most
}
