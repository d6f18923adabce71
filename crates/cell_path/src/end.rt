//! The best paths that end in one length and sign. Read next: `ends`.
ghost use Rattle.std.specs.Prelude.{◌≡◌, ℕ, ◌+◌, ◌-◌, ◌<◌, ◌≤◌, List, drop, length, ℤ, ◌+ℤ◌, ◌-ℤ◌};
ghost use Rattle.cell_path.specs.declared.cell.Step.{Step};
ghost use Rattle.cell_path.specs.Four.{at_step, low};
ghost use Rattle.cell_path.specs.Kept.{number_ago, sum_ago};
ghost use Rattle.cell_path.specs.Path.{sign_before, signed, sound_in};
ghost use Rattle.cell_path.specs.Scores.{AreSteps};
ghost use Rattle.cell_path.specs.StandsFor.{steps_at, IsEndAt, RowsStandFor, SumsStandFor};

use crate::cell::{Bit, Sign};
use crate::four::{Four, minus, plus};
use crate::lengths::length_at;
use crate::rows::Rows;
use crate::sums::Sums;

/// The sound between two of the steps before each of the latest four.
#[inline(always)]
fn between(sums: &Sums, ago: usize, later: usize) -> [u32; 4]
    requires order { later ≤ ago }
    requires within { ago ≤ 96 }
    ensures { (step : ℕ) (x y : ℤ) → step < 4 → sum_ago sums.now (3 - step + later) ≡ low x
        → sum_ago sums.now (3 - step + ago) ≡ low y → at_step result step ≡ low (x -ℤ y) }
{
    minus(sums.four(later), sums.four(ago))
}

/// The sound up to each of the latest four steps times the signs of a bit that ends there with plus.
#[inline(always)]
fn sound(sums: &Sums, length: usize, bit: Bit) -> [u32; 4]
    requires { length ≤ 96 }
    ensures { (step : ℕ) (steps : List Step) → step < 4 → SumsStandFor sums.now steps
        → at_step result step ≡ low (sound_in bit length (steps_at step steps)) }
{
    let half = length / 2;
    match bit {
        Bit::Zero => between(sums, length, 0),
        Bit::One => minus(between(sums, half, 0), between(sums, length, length - half)),
    }
}

/// The scores of paths that end with a bit, after the best that can come before it.
#[inline(always)]
fn behind(
    rows: &Rows,
    length: usize,
    place: usize,
    bit: Bit,
    sign: Sign,
    sound: [u32; 4],
) -> [u32; 4]
    requires place { place < 45 }
    requires least { 4 ≤ length }
    requires most { length ≤ 96 }
    ensures { (step : ℕ) (x y : ℤ) → step < 4 → at_step sound step ≡ low x
        → number_ago rows.now (length - 1 - step) place (sign_before bit sign) ≡ low y
        → at_step result step ≡ low (signed sign x +ℤ y) }
{
    let before = rows.four(length, place, bit.sign_before(sign));
    match sign {
        Sign::Plus => plus(sound, before),
        Sign::Minus => minus(before, sound),
    }
}

/// The best paths that end with each of the latest four steps, in one length and sign. The sums have those
/// steps already, and the rows do not.
#[inline(always)]
pub(crate) fn best_end(sums: &Sums, rows: &Rows, place: usize, sign: Sign) -> Four
    requires { place < 45 }
    ensures ends { (step : ℕ) (steps : List Step) → step < 4 → 4 ≤ length steps → AreSteps steps
        → SumsStandFor sums.now steps → RowsStandFor rows.now (drop 4 steps)
        → IsEndAt steps place sign result step }
    ensures codes { (step : ℕ) → step < 4 → at_step result.codes step < 2 }
{
    let length = length_at(place);
    let zero = sound(sums, length, Bit::Zero);
    let one = sound(sums, length, Bit::One);
    let flat = behind(rows, length, place, Bit::Zero, sign, zero);
    let turned = behind(rows, length, place, Bit::One, sign, one);
    Four::first(flat).or(turned, 1)
}
