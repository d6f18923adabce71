//! The level of cells. Read next: `fit`.
ghost use Rattle.std.specs.Prelude.{◌≡◌, ◌+◌, ◌+ℤ◌, ◌*◌, ◌/◌, ◌^◌, ◌<◌, ◌≤◌, unsigned_abs, length};
ghost use Rattle.std.specs.List.{sum_by, All};
ghost use Rattle.path_front.specs.Levels.{above, eighths, is_faint, level_of, mean_level, range_by, IsRange};
ghost use Rattle.path_front.specs.Measured.{IsMeasured};

use crate::measured::Measured;
use cell_path::Bit;

/// The mean levels of the cells before a cell and behind it: the lesser one, and the greater one.
#[derive(Clone, Copy)]
pub struct Range {
    pub least: u64,
    pub most: u64,
}

/// A number, or 0 if it is below zero.
fn above(number: i64) -> u64
    ensures value { result ≡ above number }
    ensures most { result ≤ unsigned_abs number }
{
    if number <= 0 {
        0
    } else {
        number.unsigned_abs()
    }
}

/// The sum of two halves, or 0 if it is below zero.
fn both_above(first: i64, second: i64) -> u64
    requires first { unsigned_abs first ≤ 96 * 2 ^ 15 }
    requires second { unsigned_abs second ≤ 96 * 2 ^ 15 }
    ensures value { result ≡ above (first +ℤ second) }
    ensures most { result ≤ unsigned_abs first + unsigned_abs second }
{
    above(first + second)
}

/// The level of a cell: the mean of the sound times the signs.
fn level(cell: &Measured) -> u64
    requires { IsMeasured cell.now }
    ensures value { result ≡ level_of cell.now }
    ensures most { result ≤ 2 ^ 15 }
{
    both_above(cell.first.sum, cell.second.sum) / (2 * u64::from(cell.length))
}

/// The sum of the levels of some cells.
fn levels(cells: &[Measured]) -> u64
    requires few { length cells.now ≤ 8 }
    requires measured { All IsMeasured cells.now }
    ensures value { result ≡ sum_by level_of cells.now }
    ensures most { result ≤ length cells.now * 2 ^ 15 }
{
    let mut sum = 0;
    for cell in cells {
        sum += level(cell);
    }
    sum
}

/// The mean of numbers with this sum. Mostly there are eight, which is no division, but a shift.
fn mean_of(sum: u64, many: usize) -> u64
    requires { 0 < many }
    ensures { result ≡ sum / many }
{
    if many == 8 {
        sum / 8
    } else {
        sum / many as u64
    }
}

/// The mean of the levels of some cells.
fn mean_level(cells: &[Measured]) -> u64
    requires some { 0 < length cells.now }
    requires few { length cells.now ≤ 8 }
    requires measured { All IsMeasured cells.now }
    ensures value { result ≡ mean_level cells.now }
    ensures most { result ≤ 2 ^ 15 }
{
    mean_of(levels(cells), cells.len())
}

/// The mean levels of the neighbours: of those before a cell, and of those behind it where there are some.
pub(crate) fn range_of(before: &[Measured], behind: &[Measured]) -> Range
    requires some { 0 < length before.now }
    requires few { length before.now ≤ 8 }
    requires few_behind { length behind.now ≤ 8 }
    requires before { All IsMeasured before.now }
    requires behind { All IsMeasured behind.now }
    ensures value { result ≡ range_by before.now behind.now }
    ensures range { IsRange result }
{
    let near = mean_level(before);
    if behind.is_empty() {
        return Range {
            least: near,
            most: near,
        };
    }
    let far = mean_level(behind);
    Range {
        least: near.min(far),
        most: near.max(far),
    }
}

/// How many eighths of the level there have to be between two cells.
fn eighths(before: Bit, bit: Bit) -> u64
    ensures value { result ≡ eighths before bit }
    ensures most { result ≤ 2 }
{
    match (before, bit) {
        (Bit::One, Bit::One) => 1,
        (Bit::One, Bit::Zero) | (Bit::Zero, _) => 2,
    }
}

/// Whether the sound from the middle of a cell to the middle of the next has no level.
pub(crate) fn is_faint(least: u32, level: u64, before: &Measured, cell: &Measured) -> bool
    requires least { least ≤ 2 ^ 15 }
    requires level { level ≤ 2 ^ 15 }
    requires before { IsMeasured before.now }
    requires cell { IsMeasured cell.now }
    ensures { result ≡ is_faint least level before.now cell.now }
{
    let sum = both_above(before.second.sum, cell.first.sum);
    let part = (eighths(before.bit, cell.bit) * level).max(2 * u64::from(least));
    8 * sum < part * u64::from(before.length + cell.length)
}
