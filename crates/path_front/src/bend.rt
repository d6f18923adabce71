//! Where the path bends, as at a cut of the tape. Read next: `tile`.
ghost use Rattle.std.specs.Prelude.{◌≡◌, ◌≤◌, length};
ghost use Rattle.path_front.specs.Bend.{bends, bends_from, beyond, is_peak, keep_pace, peaks, strays};

use crate::gate::NEIGHBOURS;
use crate::measured::Measured;

/// Whether at most one of some cells is a grain longer or shorter than the pace.
fn keep_pace(grain: u32, pace: u32, cells: &[Measured]) -> bool
    ensures { result ≡ keep_pace grain pace cells.now }
{
    cells
        .iter()
        .filter(|cell| grain <= cell.length.abs_diff(pace))
        .count()
        <= 1
}

/// How many grains a cell is beyond the pace, to the longer side or to the shorter.
fn beyond(grain: u32, longer: bool, pace: u32, cell: &Measured) -> u32
    requires grain { 1 ≤ grain }
    ensures { result ≡ beyond grain longer pace cell.now }
{
    let steps = if longer {
        cell.length.saturating_sub(pace)
    } else {
        pace.saturating_sub(cell.length)
    };
    steps / grain
}

/// Whether the middle one of five cells in a row, which are so many grains beyond the pace, is the first of the
/// farthest, and both beside it are beyond it too.
fn is_peak(earlier: u32, last: u32, far: u32, next: u32, later: u32) -> bool
    ensures { result ≡ is_peak earlier last far next later }
{
    1 <= last.min(next) && earlier.max(last) < far && next.max(later) <= far
}

/// Whether a cell is a peak between the two cells before it and the two behind it.
fn peaks(grain: u32, pace: u32, before: &[Measured], cell: &Measured, behind: &[Measured]) -> bool
    requires grain { 1 ≤ grain }
    requires before { 2 ≤ length before.now }
    requires behind { 2 ≤ length behind.now }
    ensures { result ≡ peaks grain pace before.now cell.now behind.now }
{
    let longer = pace < cell.length;
    is_peak(
        beyond(grain, longer, pace, &before[1]),
        beyond(grain, longer, pace, &before[0]),
        beyond(grain, longer, pace, cell),
        beyond(grain, longer, pace, &behind[0]),
        beyond(grain, longer, pace, &behind[1]),
    )
}

/// Whether a cell peaks between others that keep the pace from the third on, on either side.
fn bends_from(
    grain: u32,
    pace: u32,
    before: &[Measured],
    cell: &Measured,
    behind: &[Measured],
) -> bool
    requires grain { 1 ≤ grain }
    requires before { 2 ≤ length before.now }
    requires behind { 2 ≤ length behind.now }
    ensures { result ≡ bends_from grain pace before.now cell.now behind.now }
{
    keep_pace(grain, pace, &before[2..])
        && keep_pace(grain, pace, &behind[2..])
        && peaks(grain, pace, before, cell, behind)
}

/// Whether the path bends at a cell.
pub(crate) fn bends(grain: u32, before: &[Measured], cell: &Measured, behind: &[Measured]) -> bool
    requires grain { 1 ≤ grain }
    ensures { result ≡ bends grain before.now cell.now behind.now }
{
    if before.len() != NEIGHBOURS || behind.len() != NEIGHBOURS {
        return false;
    }
    bends_from(grain, before[NEIGHBOURS - 1].length, before, cell, behind)
}
