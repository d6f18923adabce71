//! Which cells are code, and which are noise. Read next: `bend`.
ghost use Rattle.std.specs.Prelude.{◌≡◌, ◌^◌, ◌<◌, ◌≤◌, IfSome, IfNone, OnSome, List, [], ◌∷◌, ◌++◌, length, drop, take};
ghost use Rattle.std.specs.List.{All};
ghost use Rattle.path_front.specs.Gate.{ear_of, refuses_between, GateStandsFor, IsEar, Judges};
ghost use Rattle.step_grid.specs.Grid.{IsGrid};
ghost use Rattle.path_front.specs.Measured.{IsMeasured};
ghost use Rattle.path_front.specs.declared.gate.TheConstants.{NEIGHBOURS};
ghost use Rattle.path_front.specs.declared.measured.Measured.{Measured};

use crate::bend::bends;
use crate::fit::{is_misfit, usual};
use crate::levels::{is_faint, range_of};
use crate::measured::Measured;
use arrayvec::ArrayVec;
use std::marker::Model;
use step_grid::Grid;

/// How many cells before and after a cell are looked at.
pub const NEIGHBOURS: usize = 8;

/// A cell, and whether the stretch of code breaks in front of it.
#[derive(Clone, Copy)]
pub struct Judged {
    pub cell: Measured,
    pub breaks: bool,
}

/// What the gate knows of the sound.
#[derive(Clone, Copy)]
pub struct Ear {
    /// The least threshold: code has a quarter of it.
    pub least: u32,
    /// The steps of a sample, or 1 where a step is some samples.
    pub grain: u32,
}

/// What the gate knows of a sound on a grid.
pub(crate) fn ear_of(grid: Grid, least: u32) -> Ear
    requires grid { IsGrid grid }
    requires least { least ≤ 2 ^ 15 }
    ensures value { result ≡ ear_of grid least }
    ensures ear { IsEar result }
{
    let grain = match grid {
        Grid::Repeat(repeats) => repeats,
        Grid::Sum(_) => 1,
    };
    Ear { least, grain }
}

/// Whether a cell is refused between these neighbours.
fn refuses(ear: Ear, before: &[Measured], cell: &Measured, behind: &[Measured]) -> bool
    requires ear { IsEar ear }
    requires few { length before.now ≤ 8 }
    requires few_behind { length behind.now ≤ 8 }
    requires before { All IsMeasured before.now }
    requires cell { IsMeasured cell.now }
    requires behind { All IsMeasured behind.now }
    ensures { result ≡ refuses_between ear before.now cell.now behind.now }
{
    let Some(previous) = before.first() else {
        return false;
    };
    let range = range_of(before, behind);
    is_faint(ear.least, range.least, previous, cell)
        || is_misfit(range.most, usual(range.most, before, behind), cell)
        || bends(ear.grain, before, cell, behind)
}

/// Cells on their way through the gate.
#[derive(Drop)]
pub struct Gate {
    ear: Ear,
    /// The latest cells that were judged, the latest first.
    before: ArrayVec<Measured, 8>,
    /// The next cell to be judged, and those behind it.
    ahead: ArrayVec<Measured, 9>,
}

impl Model for Gate {
    ghost use Rattle.path_front.specs.Gate.{AreGated, GateState};

    ghost Value = { GateState };

    ghost view = { λ s. record {
      ear = s.ear;
      before = s.before.items;
      ahead = s.ahead.items;
    } };

    ghost invariant = { λ s. AreGated (record {
      ear = s.ear;
      before = s.before.items;
      ahead = s.ahead.items;
    }) };
}

impl Gate {
    /// Before the first cell.
    pub fn new(ear: Ear) -> Gate
        requires ear { IsEar ear }
        ensures stands { GateStandsFor result [] }
        ensures ear { result.ear ≡ ear }
        ensures ahead { result.ahead ≡ [] }
    {
        Gate {
            ear,
            before: ArrayVec::new(),
            ahead: ArrayVec::new(),
        }
    }

    /// Takes the next cell, and judges the one that eight cells follow now.
    pub fn feed(&mut self, cell: Measured) -> Option<Judged>
        requires cell { IsMeasured cell }
        requires room { length self.old.ahead ≤ 8 }
        ensures ear { self.new.ear ≡ self.old.ear }
        ensures room { length self.new.ahead ≤ 8 }
        ensures waits { IfNone result (self.new.ahead ≡ self.old.ahead ++ cell ∷ []) }
        ensures stands { IfNone result ((judged : List Measured) → GateStandsFor self.old judged
            → GateStandsFor self.new judged) }
        ensures front { IfSome result (λ answer. self.old.ahead ++ cell ∷ [] ≡ answer.cell ∷ self.new.ahead) }
        ensures eight { OnSome result (length self.new.ahead ≡ NEIGHBOURS) }
        ensures cell { IfSome result (λ answer. IsMeasured answer.cell) }
        ensures judges { IfSome result (λ answer. (judged more : List Measured)
            → GateStandsFor self.old judged
            → Judges self.old.ear (self.old.ahead ++ cell ∷ []) self.new judged more answer) }
    {
        self.ahead.push(cell);
        if self.ahead.is_full() {
            Some(self.judge())
        } else {
            None
        }
    }

    /// Judges the next cell when no more come.
    pub fn drain(&mut self) -> Option<Judged>
        requires room { length self.old.ahead ≤ 8 }
        ensures ear { self.new.ear ≡ self.old.ear }
        ensures room { length self.new.ahead ≤ 8 }
        ensures none { IfNone result ((self.new ≡ self.old) × (self.old.ahead ≡ [])) }
        ensures front { IfSome result (λ answer. self.old.ahead ≡ answer.cell ∷ self.new.ahead) }
        ensures cell { IfSome result (λ answer. IsMeasured answer.cell) }
        ensures judges { IfSome result (λ answer. (judged : List Measured) → GateStandsFor self.old judged
            → Judges self.old.ear self.old.ahead self.new judged [] answer) }
    {
        if self.ahead.is_empty() {
            None
        } else {
            Some(self.judge())
        }
    }

    /// Judges the next cell.
    fn judge(&mut self) -> Judged
        requires some { 0 < length self.old.ahead }
        ensures ear { self.new.ear ≡ self.old.ear }
        ensures front { self.old.ahead ≡ result.cell ∷ self.new.ahead }
        ensures cell { IsMeasured result.cell }
        ensures judges { (judged more : List Measured)
            → take NEIGHBOURS (drop 1 self.old.ahead ++ more) ≡ drop 1 self.old.ahead
            → GateStandsFor self.old judged
            → Judges self.old.ear self.old.ahead self.new judged more result }
    {
        let cell = self.ahead.remove(0);
        let before = self.before.as_slice();
        let refused = refuses(self.ear, before, &cell, self.ahead.as_slice());
        self.before.truncate(NEIGHBOURS - 1);
        self.before.insert(0, cell);
        Judged {
            cell,
            breaks: cell.jumps || refused,
        }
    }
}
