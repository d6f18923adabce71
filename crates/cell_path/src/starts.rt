//! The best ways to begin behind the latest four steps. Read next: `spread`.
ghost use Rattle.std.specs.Prelude.{◌≡◌, ◌≢◌, ℕ, ◌+◌, ◌<◌, ◌≤◌, List};
ghost use Rattle.cell_path.specs.Four.{at_step};
ghost use Rattle.cell_path.specs.Kept.{RowsState};
ghost use Rattle.cell_path.specs.Lengths.{IsEven};
ghost use Rattle.cell_path.specs.Started.{mark_at, AreCosts, HasMarks, StartsSoFar};
ghost use Rattle.cell_path.specs.StandsFor.{AreBits};

use crate::cell::Sign;
use crate::ends::Ends;
use crate::four::{Four, plus, times};
use crate::lengths::{JUMP, PLACES, length_at};
use crate::mark::mark_of;
use crate::rows::Rows;
use crate::start::{Costs, best_start, costs_of};

/// The marks of a length.
#[inline(always)]
fn mark(plus: Four, minus: Four, plus_start: Four, minus_start: Four) -> [u32; 4]
    requires plus { (step : ℕ) → step < 4 → at_step plus.codes step < 2 }
    requires minus { (step : ℕ) → step < 4 → at_step minus.codes step < 2 }
    requires plus_start { (step : ℕ) → step < 4 → at_step plus_start.codes step < 4 }
    requires minus_start { (step : ℕ) → step < 4 → at_step minus_start.codes step < 4 }
    ensures marked { (step : ℕ) → step < 4 → HasMarks (at_step result step) plus minus plus_start minus_start step }
{
    let a = plus.codes;
    let b = minus.codes;
    let c = plus_start.codes;
    let d = minus_start.codes;
    [
        mark_of(a[0], b[0], c[0], d[0]),
        mark_of(a[1], b[1], c[1], d[1]),
        mark_of(a[2], b[2], c[2], d[2]),
        mark_of(a[3], b[3], c[3], d[3]),
    ]
}

/// Puts them in.
#[inline(always)]
fn keep(marks: &mut [[u32; 4]; PLACES], place: usize, four: [u32; 4])
    requires { place < 45 }
    ensures here { (step : ℕ) → mark_at marks.new step place ≡ at_step four step }
    ensures others { (step other : ℕ) → other ≢ place → mark_at marks.new step other ≡ mark_at marks.old step other }
{
    marks[place] = four;
}

/// Puts in the best ways to begin a cell of one length.
#[inline(always)]
fn begin(
    rows: &mut Rows,
    marks: &mut [[u32; 4]; PLACES],
    ends: &Ends,
    best: Four,
    costs: Costs,
    place: usize,
)
    requires place { place < 45 }
    requires bits { AreBits ends.now }
    ensures started { (first : RowsState) (levels : List ℕ) → AreCosts levels place costs
        → StartsSoFar first rows.old marks.old ends.now best levels place
        → StartsSoFar first rows.new marks.new ends.now best levels (place + 1) }
{
    let plus = best_start(ends, best, costs, place, Sign::Plus);
    let minus = best_start(ends, best, costs, place, Sign::Minus);
    rows.put(place, plus.numbers, minus.numbers);
    let four = mark(ends.plus[place], ends.minus[place], plus, minus);
    keep(marks, place, four);
}

/// Puts in those of some lengths in a row, each of which is by the same above the one before, as is the next one.
fn begin_some(
    rows: &mut Rows,
    marks: &mut [[u32; 4]; PLACES],
    ends: &Ends,
    best: Four,
    levels: [u32; 4],
    from: usize,
    to: usize,
    rise: usize,
)
    requires from { 0 < from }
    requires order { from ≤ to }
    requires to { to < 45 }
    requires few { rise ≤ 4 }
    requires even { IsEven rise from to }
    requires bits { AreBits ends.now }
    ensures started { (first : RowsState) → StartsSoFar first rows.old marks.old ends.now best levels from
        → StartsSoFar first rows.new marks.new ends.now best levels to }
{
    let by = times(levels, rise as u32);
    let more = times(levels, (JUMP * rise) as u32);
    let mut jump = times(levels, (JUMP * length_at(from - 1)) as u32);
    for place in from..to {
        let next = plus(jump, more);
        let costs = Costs {
            shorter: by,
            longer: by,
            jump: next,
        };
        begin(rows, marks, ends, best, costs, place);
        jump = next;
    }
}

/// Puts in the best ways to begin behind each of the latest four steps, with the best paths of all and the mean
/// sizes there.
// Lengths that rise by the same are taken together, so that no cost has to be multiplied for each.
pub(crate) fn best_starts(
    rows: &mut Rows,
    marks: &mut [[u32; 4]; PLACES],
    ends: &Ends,
    best: Four,
    levels: [u32; 4],
)
    requires bits { AreBits ends.now }
    ensures started { StartsSoFar rows.old rows.new marks.new ends.now best levels 45 }
{
    begin(rows, marks, ends, best, costs_of(levels, 0, 4, 1), 0);
    begin_some(rows, marks, ends, best, levels, 1, 20, 1);
    begin(rows, marks, ends, best, costs_of(levels, 1, 24, 2), 20);
    begin_some(rows, marks, ends, best, levels, 21, 32, 2);
    begin(rows, marks, ends, best, costs_of(levels, 2, 48, 4), 32);
    begin_some(rows, marks, ends, best, levels, 33, 44, 4);
    begin(rows, marks, ends, best, costs_of(levels, 4, 96, 0), 44);
}
