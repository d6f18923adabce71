//! The marks of the latest steps, and following a best path back by them. Read next: `point`.
ghost use Rattle.std.specs.Prelude.{◌≡◌, ℕ, ◌+◌, ◌-◌, ◌^◌, ◌<◌, ◌≤◌, ℤ, IfSome, None, List, [], ◌∷◌, drop, length};
ghost use Rattle.cell_path.specs.declared.cell.Cell.{Cell};
ghost use Rattle.cell_path.specs.declared.cell.Step.{Step};
ghost use Rattle.cell_path.specs.declared.lengths.TheConstants.{LENGTHS};
ghost use Rattle.cell_path.specs.Best.{IsBest};
ghost use Rattle.cell_path.specs.KeptMarks.{marks_ago, without_latest, GoesBack, MarksStandFor};
ghost use Rattle.cell_path.specs.Lengths.{length_in};
ghost use Rattle.cell_path.specs.Marks.{IsMarked};
ghost use Rattle.cell_path.specs.Number.{IsBestEnd};

use crate::cell::{Cell, Sign, Way};
use crate::lengths::{PLACES, length_at};
use crate::mark::{StepMarks, bit_of, way_of};
use crate::point::{Back, Point, point_before};
use std::marker::Model;

/// How many steps are kept, through which a path can be followed back.
pub const KEPT: usize = 4_096;

/// The marks of the latest steps, in a ring.
#[derive(Drop)]
pub(crate) struct Marks {
    ring: [StepMarks; KEPT],
    count: u64,
}

impl Model for Marks {
    ghost use Rattle.cell_path.specs.KeptMarks.{AreMarks, MarksState};

    ghost Value = { MarksState };

    ghost view = { λ s. record { ring = s.ring; count = s.count } };

    ghost invariant = { λ s. AreMarks (record { ring = s.ring; count = s.count }) };
}

impl Marks {
    /// Before the first step.
    pub(crate) fn new() -> Marks
        ensures stands { MarksStandFor result [] }
        ensures count { result.count ≡ 0 }
    {
        let none = StepMarks {
            marks: [0; PLACES],
            best_place: 0,
            best_sign: Sign::Plus,
        };
        Marks {
            ring: [none; KEPT],
            count: 0,
        }
    }

    /// Takes the marks of the next step.
    pub(crate) fn push(&mut self, marks: StepMarks)
        requires room { self.old.count < 2 ^ 40 + 4 }
        requires place { marks.best_place < 45 }
        ensures stands { (step : Step) (steps : List Step) → MarksStandFor self.old steps
            → IsMarked marks (step ∷ steps)
            → MarksStandFor self.new (step ∷ steps) }
        ensures count { self.new.count ≡ self.old.count + 1 }
    {
        self.count += 1;
        self.ring[self.count as usize % KEPT] = marks;
    }

    /// Takes back the marks of some steps.
    pub(crate) fn undo(&mut self, count: u64)
        requires { count ≤ self.old.count }
        ensures { self.new ≡ without_latest count self.old }
    {
        self.count -= count;
    }

    /// The marks of the step `ago` steps before the latest.
    fn ago(&self, ago: usize) -> &StepMarks
        requires { ago < 4_096 }
        ensures value { result.now ≡ marks_ago self.now ago }
        ensures place { result.now.best_place < 45 }
    {
        &self.ring[(self.count as usize + KEPT - ago) % KEPT]
    }

    /// Where the best path of all ended, so many steps ago.
    pub(crate) fn best(&self, ago: usize) -> Point
        requires { ago < 4_096 }
        ensures best { (steps : List Step) → MarksStandFor self.now steps → ago < length steps
            → (number : ℤ) × IsBestEnd LENGTHS (drop ago steps) result.place result.sign number }
        ensures place { result.place < 45 }
        ensures there { result.ago ≡ ago }
    {
        let there = self.ago(ago);
        Point {
            ago,
            place: usize::from(there.best_place),
            sign: there.best_sign,
        }
    }

    /// The latest cell of the best path that ends in a point, and the end of the cell before.
    pub(crate) fn back(&self, at: Point) -> Back
        requires place { at.place < 45 }
        requires ago { at.ago < 4_000 }
        ensures back { (steps : List Step) (path : List Cell) → MarksStandFor self.now steps → at.ago < length steps
            → IsBest LENGTHS (drop at.ago steps) at.place at.sign path → GoesBack steps path result }
        ensures cell { result.cell.place ≡ at.place }
        ensures point { IfSome result.before (λ before. (before.place < 45)
            × (before.ago ≡ at.ago + length_in LENGTHS at.place) × (before.ago < self.now.count)) }
        ensures first { result.before ≡ None → self.now.count ≤ at.ago + length_in LENGTHS at.place }
    {
        let bit = bit_of(self.ago(at.ago).marks[at.place], at.sign);
        let ago = at.ago + length_at(at.place);
        if self.count <= ago as u64 {
            return Back {
                cell: Cell {
                    place: at.place,
                    bit,
                    sign: at.sign,
                    way: Way::Jump,
                },
                before: None,
            };
        }
        let sign = bit.sign_before(at.sign);
        let there = self.ago(ago);
        let way = way_of(there.marks[at.place], sign);
        Back {
            cell: Cell {
                place: at.place,
                bit,
                sign: at.sign,
                way,
            },
            before: Some(point_before(way, ago, at.place, sign, there)),
        }
    }
}
