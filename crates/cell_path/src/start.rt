//! The best ways to begin a cell behind the latest four steps. Read next: `starts`.
ghost use Rattle.std.specs.Prelude.{ℕ, ◌+◌, ◌-◌, ◌*◌, ◌<◌, ◌≤◌, List};
ghost use Rattle.cell_path.specs.declared.cell.Step.{Step};
ghost use Rattle.cell_path.specs.declared.cell.Sign.{Sign};
ghost use Rattle.cell_path.specs.declared.ends.Ends.{Ends};
ghost use Rattle.cell_path.specs.declared.four.Four.{Four};
ghost use Rattle.cell_path.specs.declared.lengths.TheConstants.{JUMP, LENGTHS};
ghost use Rattle.cell_path.specs.Four.{at_step};
ghost use Rattle.cell_path.specs.Lengths.{length_in};
ghost use Rattle.cell_path.specs.StandsFor.{IsStartAt};
ghost use Rattle.cell_path.specs.Started.{AreCosts, AreStartsOf, AreTimes, IsStartSoFar};

use crate::cell::Sign;
use crate::ends::Ends;
use crate::four::{Four, minus, times};
use crate::lengths::{JUMP, PLACES};

/// What it costs at each of four steps to begin a cell of one length: behind a cell of the next length below, behind
/// one of the next above, and in a jump.
#[derive(Clone, Copy)]
pub struct Costs {
    pub shorter: [u32; 4],
    pub longer: [u32; 4],
    pub jump: [u32; 4],
}

/// Those of a length that is so much above the next below, and so much below the next above.
#[inline(always)]
pub(crate) fn costs_of(levels: [u32; 4], below: usize, length: usize, above: usize) -> Costs
    requires below { below ≤ 96 }
    requires length { length ≤ 96 }
    requires above { above ≤ 96 }
    ensures shorter { AreTimes levels below result.shorter }
    ensures longer { AreTimes levels above result.longer }
    ensures jump { AreTimes levels (JUMP * length) result.jump }
{
    Costs {
        shorter: times(levels, below as u32),
        longer: times(levels, above as u32),
        jump: times(levels, (JUMP * length) as u32),
    }
}

/// Tries the length below, which the shortest has not.
#[inline(always)]
fn or_shorter(start: Four, ends: &Ends, cost: [u32; 4], place: usize, sign: Sign) -> Four
    requires place { place < 45 }
    ensures next { (best : Four) (levels : List ℕ) (step : ℕ) (steps : List Step)
        → AreStartsOf ends.now best levels steps step
        → (0 < place → AreTimes levels (length_in LENGTHS place - length_in LENGTHS (place - 1)) cost)
        → IsStartSoFar steps 1 place sign start step → IsStartSoFar steps 2 place sign result step }
    ensures codes { (step : ℕ) → step < 4 → at_step start.codes step < 4 → at_step result.codes step < 4 }
{
    if place == 0 {
        return start;
    }
    let number = minus(ends.at(place - 1, sign).numbers, cost);
    start.or(number, 1)
}

/// Tries the length above, which the longest has not.
#[inline(always)]
fn or_longer(start: Four, ends: &Ends, cost: [u32; 4], place: usize, sign: Sign) -> Four
    requires place { place < 45 }
    ensures next { (best : Four) (levels : List ℕ) (step : ℕ) (steps : List Step)
        → AreStartsOf ends.now best levels steps step
        → (place < 44 → AreTimes levels (length_in LENGTHS (place + 1) - length_in LENGTHS place) cost)
        → IsStartSoFar steps 2 place sign start step → IsStartSoFar steps 3 place sign result step }
    ensures codes { (step : ℕ) → step < 4 → at_step start.codes step < 4 → at_step result.codes step < 4 }
{
    if place + 1 == PLACES {
        return start;
    }
    let number = minus(ends.at(place + 1, sign).numbers, cost);
    start.or(number, 2)
}

/// Tries a jump from the best path of all.
#[inline(always)]
fn or_jump(start: Four, best: Four, cost: [u32; 4], place: usize) -> Four
    requires place { place < 45 }
    ensures next { (ends : Ends) (levels : List ℕ) (sign : Sign) (step : ℕ) (steps : List Step)
        → AreStartsOf ends best levels steps step → AreTimes levels (JUMP * length_in LENGTHS place) cost
        → IsStartSoFar steps 3 place sign start step → IsStartSoFar steps 4 place sign result step }
    ensures codes { (step : ℕ) → step < 4 → at_step start.codes step < 4 → at_step result.codes step < 4 }
{
    start.or(minus(best.numbers, cost), 3)
}

/// The best ways to begin a cell of one length behind each of the latest four steps, if the cell before has to
/// end with this sign. The codes are those of ways.
#[inline(always)]
pub(crate) fn best_start(ends: &Ends, best: Four, costs: Costs, place: usize, sign: Sign) -> Four
    requires { place < 45 }
    ensures starts { (levels : List ℕ) (step : ℕ) (steps : List Step) → AreCosts levels place costs
        → AreStartsOf ends.now best levels steps step → IsStartAt steps place sign result step }
    ensures codes { (step : ℕ) → step < 4 → at_step result.codes step < 4 }
{
    let same = Four::first(ends.at(place, sign).numbers);
    let shorter = or_shorter(same, ends, costs.shorter, place, sign);
    let longer = or_longer(shorter, ends, costs.longer, place, sign);
    or_jump(longer, best, costs.jump, place)
}
