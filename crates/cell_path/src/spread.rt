//! The marks of each of four steps, from those of each length. Read next: `mark`.
ghost use Rattle.std.specs.Prelude.{◌≡◌, ◌≢◌, ℕ, ◌/◌, ◌%◌, ◌<◌};
ghost use Rattle.cell_path.specs.Four.{at_step};
ghost use Rattle.cell_path.specs.Marks.{sign_from};
ghost use Rattle.cell_path.specs.Started.{mark_at, mark_of_step, marks_of, AreSpread, KeepsBest};

use crate::lengths::PLACES;
use crate::mark::{FourMarks, no_marks_yet};

/// Puts those of a length in.
#[inline(always)]
fn put(marks: &mut FourMarks, place: usize, four: [u32; 4])
    requires { place < 45 }
    ensures here { (step : ℕ) → step < 4 → mark_of_step marks.new step place ≡ at_step four step % 256 }
    ensures others { (step other : ℕ) → other ≢ place
        → mark_of_step marks.new step other ≡ mark_of_step marks.old step other }
    ensures best { KeepsBest marks.old marks.new }
{
    marks.first.marks[place] = (four[0] % 256) as u8;
    marks.second.marks[place] = (four[1] % 256) as u8;
    marks.third.marks[place] = (four[2] % 256) as u8;
    marks.fourth.marks[place] = (four[3] % 256) as u8;
}

/// Puts those of all lengths in.
#[inline(always)]
fn fill(marks: &mut FourMarks, lengths: &[[u32; 4]; PLACES])
    ensures all { AreSpread 45 lengths.now marks.old marks.new }
{
    for place in 0..PLACES {
        put(marks, place, lengths[place]);
    }
}

/// The marks of each step, with the codes of the ends of the best paths of all.
// The marks of four steps are made length by length, four in a row, since the compiler then keeps them in one register.
pub(crate) fn spread(lengths: &[[u32; 4]; PLACES], best: [u32; 4]) -> FourMarks
    requires { (step : ℕ) → step < 4 → at_step best step < 90 }
    ensures marks { (step place : ℕ) → step < 4 → place < 45
        → mark_of_step result step place ≡ mark_at lengths.now step place % 256 }
    ensures places { (step : ℕ) → step < 4 → (marks_of result step).best_place ≡ at_step best step / 2 }
    ensures signs { (step : ℕ) → step < 4 → (marks_of result step).best_sign ≡ sign_from (at_step best step % 2) }
{
    let mut marks = FourMarks {
        first: no_marks_yet(best[0]),
        second: no_marks_yet(best[1]),
        third: no_marks_yet(best[2]),
        fourth: no_marks_yet(best[3]),
    };
    fill(&mut marks, lengths);
    marks
}
