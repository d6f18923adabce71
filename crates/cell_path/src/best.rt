//! The best paths of all that end with the latest four steps. Read next: `start`.
ghost use Rattle.std.specs.Prelude.{◌≡◌, ℕ, ◌<◌, ◌≤◌, List, length};
ghost use Rattle.cell_path.specs.declared.cell.Step.{Step};
ghost use Rattle.cell_path.specs.Four.{at_step};
ghost use Rattle.cell_path.specs.Scores.{AreSteps};
ghost use Rattle.cell_path.specs.StandsFor.{AreEnds, IsBestAt};

use crate::cell::Sign;
use crate::ends::Ends;
use crate::four::Four;
use crate::lengths::PLACES;

/// The first of the greatest at each step. Its code is twice the place of its length, and one more for minus.
// Out of line, since the compiler keeps codes in one register if four of them are written in a row.
#[inline(never)]
pub(crate) fn best_of_all(ends: &Ends) -> Four
    ensures best { (step : ℕ) (steps : List Step) → step < 4 → 4 ≤ length steps → AreSteps steps
        → AreEnds 45 ends.now steps step → IsBestAt steps result step }
    ensures codes { (step : ℕ) → step < 4 → at_step result.codes step < 90 }
{
    let mut best = Four::first(ends.at(0, Sign::Plus).numbers).or(
        ends.at(0, Sign::Minus).numbers,
        1,
    );
    for place in 1..PLACES {
        let code = 2 * place as u32;
        best = best
            .or(ends.at(place, Sign::Plus).numbers, code)
            .or(ends.at(place, Sign::Minus).numbers, code + 1);
    }
    best
}
