//! The cells of a sound, from its samples. Read next: `clip`.
ghost use Rattle.std.specs.Prelude.{◌≡◌, ◌+◌, ◌^◌, ◌<◌, ◌≤◌, ℤ, true, false, IfSome, IfNone, OnSome, List, [], ◌∷◌};
ghost use Rattle.cell_path.specs.declared.placed.Placed.{Placed};
ghost use Rattle.path_front.specs.Cells.{cell_behind, cells_left, sounds_in, CellsEndFor, CellsStandFor, GivesCell};
ghost use Rattle.path_front.specs.Cells.{GivesLastCell, IsIdle, SameSound};
ghost use Rattle.step_grid.specs.Grid.{IsGrid};
ghost use Rattle.path_front.specs.Measured.{IsMeasured};

use crate::latest::Latest;
use crate::measured::{Measured, measure};
use crate::steps::Steps;
use cell_path::Decisions;
use std::marker::Model;
use step_grid::Grid;

/// A sound on its way into cells.
#[derive(Drop)]
pub struct Cells {
    steps: Steps,
    latest: Latest,
    decisions: Decisions,
    /// Where the cell that was given last ended.
    ended: u64,
}

impl Model for Cells {
    ghost use Rattle.path_front.specs.Cells.{AreCells, CellsState};

    ghost Value = { CellsState };

    ghost view = { λ s. record { steps = s.steps; latest = s.latest; decisions = s.decisions; ended = s.ended } };

    ghost invariant = { λ s. AreCells (record {
      steps = s.steps;
      latest = s.latest;
      decisions = s.decisions;
      ended = s.ended;
    }) };
}

impl Cells {
    /// Before the first sample.
    pub fn new(grid: Grid, least: u32) -> Cells
        requires grid { IsGrid grid }
        requires least { least ≤ 2 ^ 15 }
        ensures stands { CellsStandFor result [] [] }
        ensures grid { result.steps.grid ≡ grid }
        ensures least { result.steps.hold.least ≡ least }
        ensures idle { IsIdle result }
        ensures count { result.steps.clip.count ≡ 0 }
    {
        Cells {
            steps: Steps::new(grid, least),
            latest: Latest::new(),
            decisions: Decisions::new(),
            ended: 0,
        }
    }

    /// Takes the next sample, when all that those before it bring has been given.
    pub fn feed(&mut self, sample: i16)
        requires idle { IsIdle self.old }
        requires room { self.old.steps.clip.count < 2 ^ 37 }
        ensures stands { (samples : List ℤ) (given : List Placed) → CellsStandFor self.old samples given
            → CellsStandFor self.new (sample ∷ samples) given }
        ensures grid { self.new.steps.grid ≡ self.old.steps.grid }
        ensures least { self.new.steps.hold.least ≡ self.old.steps.hold.least }
        ensures count { self.new.steps.clip.count ≡ self.old.steps.clip.count + 1 }
    {
        self.steps.feed(sample);
    }

    /// Ends the sound, when all that its samples bring has been given.
    pub fn finish(&mut self)
        requires idle { IsIdle self.old }
        ensures stands { (samples : List ℤ) (given : List Placed) → CellsStandFor self.old samples given
            → CellsEndFor self.new samples given }
        ensures same { SameSound self.old self.new }
    {
        self.decisions.finish();
    }

    /// The next cell that is decided already.
    fn give(&mut self) -> Option<Measured>
        ensures gives { IfSome result (λ cell. (samples : List ℤ) (given : List Placed)
            → CellsStandFor self.old samples given
            → (placed : Placed) × (cell ≡ cell_behind (sounds_in self.new samples) placed given)
            × CellsStandFor self.new samples (placed ∷ given)) }
        ensures rest { (samples : List ℤ) (given : List Placed) → CellsEndFor self.old samples given
            → GivesLastCell self.new samples given result }
        ensures cell { IfSome result (λ cell. IsMeasured cell) }
        ensures none { IfNone result ((self.new ≡ self.old) × (self.old.decisions.waiting ≡ [])) }
        ensures less { OnSome result (cells_left self.new + 2 ≡ cells_left self.old) }
        ensures same { SameSound self.old self.new }
        ensures left { self.new.steps.left ≡ self.old.steps.left }
    {
        let decided = self.decisions.give()?;
        let cell = measure(&self.latest, self.ended, decided);
        self.ended = decided.placed.end;
        Some(cell)
    }

    /// Takes the next step, if there is one, when all that was decided has been given.
    fn step(&mut self) -> bool
        requires { self.old.decisions.waiting ≡ [] }
        ensures stands { (samples : List ℤ) (given : List Placed) → CellsStandFor self.old samples given
            → CellsStandFor self.new samples given }
        ensures takes { result ≡ true → self.old.steps.left ≡ self.new.steps.left + 1 }
        ensures none { result ≡ false → (self.new ≡ self.old) × (self.old.steps.left ≡ 0) }
        ensures less { result ≡ true → cells_left self.new < cells_left self.old }
        ensures same { SameSound self.old self.new }
    {
        let Some(heard) = self.steps.next() else {
            return false;
        };
        self.latest.push(heard.sound);
        self.decisions.feed(heard.step);
        true
    }

    /// The next cell, and none if all that the samples bring have been given.
    pub fn next(&mut self) -> Option<Measured>
        ensures gives { (samples : List ℤ) (given : List Placed) → CellsStandFor self.old samples given
            → GivesCell self.new samples given result }
        ensures rest { (samples : List ℤ) (given : List Placed) → CellsEndFor self.old samples given
            → GivesLastCell self.new samples given result }
        ensures cell { IfSome result (λ cell. IsMeasured cell) }
        ensures none { IfNone result (IsIdle self.new) }
        ensures less { OnSome result (cells_left self.new + 2 ≤ cells_left self.old) }
        ensures most { cells_left self.new ≤ cells_left self.old }
        ensures same { SameSound self.old self.new }
    {
        'steps: loop {
            if let Some(cell) = self.give() {
                return Some(cell);
            }
            if !self.step() {
                return None;
            }
        }
    }
}
