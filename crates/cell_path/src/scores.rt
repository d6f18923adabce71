//! The best scores of all paths through the sound so far. Read next: `mark`.
ghost use Rattle.std.specs.Prelude.{◌≡◌, ℕ, ◌<◌, ◌≤◌, List, [], ◌∷◌, drop, length};
ghost use Rattle.cell_path.specs.declared.cell.Cell.{Cell};
ghost use Rattle.cell_path.specs.declared.cell.Step.{Step};
ghost use Rattle.cell_path.specs.declared.lengths.TheConstants.{LENGTHS};
ghost use Rattle.cell_path.specs.Best.{IsBestOfAll};
ghost use Rattle.cell_path.specs.Marks.{IsMarked};
ghost use Rattle.cell_path.specs.Scores.{AreSteps, StandsFor};
ghost use Rattle.cell_path.specs.StandsFor.{steps_at};
ghost use Rattle.cell_path.specs.Started.{marks_of};
ghost use Rattle.cell_path.specs.Unfinished.{IsBestUnfinished};

use crate::best::best_of_all;
use crate::cell::Step;
use crate::ends::{Ends, best_ends, no_ends};
use crate::lacks::Lacks;
use crate::lengths::PLACES;
use crate::mark::FourMarks;
use crate::rows::Rows;
use crate::spread::spread;
use crate::starts::best_starts;
use crate::sums::Sums;
use std::marker::Model;

/// The best scores of all paths through the sound so far, in fixed memory: about 50 KiB.
#[derive(Drop)]
pub struct Scores {
    sums: Sums,
    rows: Rows,
    lacks: Lacks,
    /// Room for the ends of the latest four steps, which is cleared once and not for each.
    ends: Ends,
}

impl Model for Scores {
    ghost use Rattle.std.specs.Prelude.{◌≡◌};
    ghost use Rattle.cell_path.specs.Scores.{ScoresState};

    ghost Value = { ScoresState };

    ghost view = { λ s. record { sums = s.sums; rows = s.rows; lacks = s.lacks } };

    ghost invariant = { λ s. s.rows.next ≡ s.sums.next };
}

impl Scores {
    /// Before the first step.
    pub fn new() -> Scores
        ensures stands { StandsFor result [] }
    {
        Scores {
            sums: Sums::new(),
            rows: Rows::new(),
            lacks: Lacks::new(),
            ends: no_ends(),
        }
    }

    /// Takes the next four steps, and gives the marks of each.
    pub fn feed(&mut self, a: Step, b: Step, c: Step, d: Step) -> FourMarks
        // Of whichever steps they stood for.
        ensures stands { (steps : List Step) → AreSteps (d ∷ c ∷ b ∷ a ∷ []) → StandsFor self.old steps
            → StandsFor self.new (d ∷ c ∷ b ∷ a ∷ steps) }
        ensures marked { (step : ℕ) (steps : List Step) → step < 4 → AreSteps (d ∷ c ∷ b ∷ a ∷ [])
            → StandsFor self.old steps → IsMarked (marks_of result step) (steps_at step (d ∷ c ∷ b ∷ a ∷ steps)) }
        ensures places { (step : ℕ) → step < 4 → (marks_of result step).best_place < 45 }
    {
        self.sums.push(a, b, c, d);
        best_ends(&mut self.ends, &self.sums, &self.rows);
        let best = best_of_all(&self.ends);
        let levels = [a.level, b.level, c.level, d.level];
        let mut marks = [[0; 4]; PLACES];
        best_starts(&mut self.rows, &mut marks, &self.ends, best, levels);
        self.rows.turn();
        self.lacks.push(a, b, c, d, best);
        spread(&marks, best.codes)
    }

    /// How many steps ago the best unfinished path ends.
    pub fn unfinished(&self) -> usize
        ensures latest { result < 96 }
        ensures best { (steps : List Step) (path : List Cell) → 2_048 ≤ length steps → StandsFor self.now steps
            → IsBestOfAll LENGTHS (drop result steps) path → IsBestUnfinished LENGTHS steps result path }
    {
        self.lacks.least()
    }
}
