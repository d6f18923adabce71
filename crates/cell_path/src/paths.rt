//! The best paths through the sound so far, which can be followed back. Read next: `laws`.
ghost use Rattle.std.specs.Prelude.{◌≡◌, ℕ, ◌+◌, ◌^◌, ◌<◌, ◌≤◌, ℤ, IfSome, None, List, [], ◌∷◌, ◌++◌, ◌-◌, drop};
ghost use Rattle.std.specs.Prelude.{length};
ghost use Rattle.cell_path.specs.declared.cell.Cell.{Cell};
ghost use Rattle.cell_path.specs.declared.cell.Step.{Step};
ghost use Rattle.cell_path.specs.declared.lengths.TheConstants.{LENGTHS};
ghost use Rattle.cell_path.specs.Best.{IsBest, IsBestOfAll};
ghost use Rattle.cell_path.specs.KeptMarks.{without_latest, GoesBack, MarksStandFor};
ghost use Rattle.cell_path.specs.Lengths.{length_in};
ghost use Rattle.cell_path.specs.Number.{IsBestEnd};
ghost use Rattle.cell_path.specs.Paths.{PathsStandFor};
ghost use Rattle.cell_path.specs.Pending.{steps_of};
ghost use Rattle.cell_path.specs.Scores.{AreSteps};
ghost use Rattle.cell_path.specs.Unfinished.{IsBestUnfinished};

use crate::cell::Step;
use crate::marks::Marks;
use crate::pending::Pending;
use crate::point::{Back, Point};
use crate::scores::Scores;
use std::marker::Model;

/// The best paths through the sound so far, in fixed memory: about 250 KiB.
#[derive(Drop)]
pub struct Paths {
    scores: Scores,
    marks: Marks,
}

impl Model for Paths {
    ghost use Rattle.cell_path.specs.Paths.{PathsState};

    ghost Value = { PathsState };

    ghost view = { λ s. record { scores = s.scores; marks = s.marks } };
}

impl Paths {
    /// Before the first step.
    pub fn new() -> Paths
        ensures stands { PathsStandFor result [] }
        ensures count { result.marks.count ≡ 0 }
    {
        Paths {
            scores: Scores::new(),
            marks: Marks::new(),
        }
    }

    /// Takes the next four steps.
    pub fn feed(&mut self, a: Step, b: Step, c: Step, d: Step)
        requires room { self.old.marks.count ≤ 2 ^ 40 }
        ensures count { self.new.marks.count ≡ self.old.marks.count + 4 }
        ensures stands { (steps : List Step) → AreSteps (d ∷ c ∷ b ∷ a ∷ []) → PathsStandFor self.old steps
            → PathsStandFor self.new (d ∷ c ∷ b ∷ a ∷ steps) }
    {
        let marks = self.scores.feed(a, b, c, d);
        self.marks.push(marks.first);
        self.marks.push(marks.second);
        self.marks.push(marks.third);
        self.marks.push(marks.fourth);
    }

    /// Takes the last steps of a sound, fewer than four.
    pub fn finish(&mut self, pending: Pending, count: u64)
        requires room { self.old.marks.count ≤ 2 ^ 40 }
        requires few { count < 4 }
        ensures count { self.new.marks.count ≡ self.old.marks.count + count }
        ensures stands { (steps : List Step) → AreSteps (steps_of pending 3) → PathsStandFor self.old steps
            → MarksStandFor self.new.marks (steps_of pending count ++ steps) }
    {
        if count == 0 {
            return;
        }
        let silence = Step { sound: 0, level: 0 };
        let marks = self
            .scores
            .feed(pending.first, pending.second, pending.third, silence);
        self.marks.push(marks.first);
        if count == 1 {
            return;
        }
        self.marks.push(marks.second);
        if count == 2 {
            return;
        }
        self.marks.push(marks.third);
    }

    /// Takes back the last steps of a sound, of which only the marks are left.
    pub fn undo(&mut self, count: u64)
        requires { count ≤ self.old.marks.count }
        ensures { self.new ≡ record self.old { marks = without_latest count self.old.marks } }
    {
        self.marks.undo(count);
    }

    /// Where the best path of all ends, with the latest step.
    pub fn best(&self) -> Point
        ensures best { (steps : List Step) → MarksStandFor self.now.marks steps → 0 < length steps
            → (number : ℤ) × IsBestEnd LENGTHS steps result.place result.sign number }
        ensures place { result.place < 45 }
        ensures here { result.ago ≡ 0 }
    {
        self.marks.best(0)
    }

    /// Where the best unfinished path ends.
    pub fn unfinished(&self) -> Point
        ensures best { (steps : List Step) (path : List Cell) → 2_048 ≤ length steps → PathsStandFor self.now steps
            → IsBestOfAll LENGTHS (drop result.ago steps) path → IsBestUnfinished LENGTHS steps result.ago path }
        ensures ends { (steps : List Step) → 2_048 ≤ length steps → PathsStandFor self.now steps
            → (number : ℤ) × IsBestEnd LENGTHS (drop result.ago steps) result.place result.sign number }
        ensures place { result.place < 45 }
        ensures latest { result.ago < 96 }
    {
        self.marks.best(self.scores.unfinished())
    }

    /// The latest cell of the best path that ends in a point, and the end of the cell before it. So, from
    /// point to point, the whole of a best path comes, as long as the points lie within 4,000 steps.
    pub fn back(&self, at: Point) -> Back
        requires place { at.place < 45 }
        requires ago { at.ago < 4_000 }
        ensures back { (steps : List Step) (path : List Cell) → MarksStandFor self.now.marks steps
            → at.ago < length steps
            → IsBest LENGTHS (drop at.ago steps) at.place at.sign path → GoesBack steps path result }
        ensures cell { result.cell.place ≡ at.place }
        ensures point { IfSome result.before (λ before. (before.place < 45)
            × (before.ago ≡ at.ago + length_in LENGTHS at.place) × (before.ago < self.now.marks.count)) }
        ensures first { result.before ≡ None
            → self.now.marks.count ≤ at.ago + length_in LENGTHS at.place }
    {
        self.marks.back(at)
    }
}
