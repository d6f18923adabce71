//! A sound on its way into the intervals of its best path. Read next: `laws`.
ghost use Rattle.std.specs.Prelude.{◌≡◌, ℕ, ◌+◌, ◌^◌, ◌<◌, ◌≤◌, ℤ, true, false, IfSome, IfNone, OnSome, List, [], ◌∷◌};
ghost use Rattle.std.specs.Prelude.{◌++◌, length};
ghost use Rattle.path_front.specs.Cells.{SameSound};
ghost use Rattle.path_front.specs.Front.{intervals_left, FrontStandsFor, GivesInterval, GoesOn, IsFrontSettled};
ghost use Rattle.path_front.specs.Front.{IsReady};
ghost use Rattle.path_front.specs.Tiles.{IsSaid};
ghost use Rattle.step_grid.specs.Grid.{IsGrid};
ghost use Rattle.path_front.specs.declared.judging.Phase.TheVariants.{Rest};

use crate::judging::Judging;
use crate::tile::{Tiles, tiled};
use std::marker::Model;
use step_grid::{Grid, MAX_TICKS};

/// A sound on its way into the intervals of its best path, in fixed memory: about 290 KiB.
#[derive(Drop)]
pub struct Front {
    judging: Judging,
    /// The ticks of a step.
    ticks: u32,
    /// Those intervals of the latest cell that are not given yet.
    tiles: Tiles,
}

impl Model for Front {
    ghost use Rattle.path_front.specs.Front.{FrontState, IsFront};

    ghost Value = { FrontState };

    ghost view = { λ s. record { judging = s.judging; ticks = s.ticks; tiles = s.tiles.items } };

    ghost invariant = { λ s. IsFront (record { judging = s.judging; ticks = s.ticks; tiles = s.tiles.items }) };
}

impl Front {
    /// Before the first sample. A step has `ticks` ticks, and the threshold of the hold is never below
    /// `least`.
    pub fn new(grid: Grid, ticks: u32, least: u32) -> Front
        requires grid { IsGrid grid }
        requires least_ticks { 2 ≤ ticks }
        requires most_ticks { ticks ≤ MAX_TICKS }
        requires least { least ≤ 2 ^ 15 }
        ensures stands { FrontStandsFor result [] [] }
        ensures ready { IsReady result }
        ensures grid { result.judging.cells.steps.grid ≡ grid }
        ensures least { result.judging.cells.steps.hold.least ≡ least }
        ensures ticks { result.ticks ≡ ticks }
        ensures count { result.judging.cells.steps.clip.count ≡ 0 }
    {
        Front {
            judging: Judging::new(grid, least),
            ticks,
            tiles: Tiles::new(),
        }
    }

    /// Takes the next sample, when all intervals have been given that those before it bring.
    pub fn feed(&mut self, sample: i16)
        requires ready { IsReady self.old }
        requires room { self.old.judging.cells.steps.clip.count < 2 ^ 37 }
        ensures stands { (samples : List ℤ) (given : List ℕ) → FrontStandsFor self.old samples given
            → FrontStandsFor self.new (sample ∷ samples) given }
        ensures grid { self.new.judging.cells.steps.grid ≡ self.old.judging.cells.steps.grid }
        ensures least { self.new.judging.cells.steps.hold.least ≡ self.old.judging.cells.steps.hold.least }
        ensures count { self.new.judging.cells.steps.clip.count ≡ self.old.judging.cells.steps.clip.count + 1 }
        ensures ticks { self.new.ticks ≡ self.old.ticks }
        ensures phase { self.new.judging.phase ≡ self.old.judging.phase }
    {
        self.judging.feed(sample);
    }

    /// Ends the sound, when all intervals have been given that its samples bring.
    pub fn finish(&mut self)
        requires ready { IsReady self.old }
        ensures stands { (samples : List ℤ) (given : List ℕ) → FrontStandsFor self.old samples given
            → FrontStandsFor self.new samples given }
        ensures same { SameSound self.old.judging.cells self.new.judging.cells }
        ensures ticks { self.new.ticks ≡ self.old.ticks }
        ensures phase { self.new.judging.phase ≡ Rest }
    {
        self.judging.finish();
    }

    /// Gives one of the intervals of the latest cell, if any is left.
    fn give(&mut self) -> Option<u32>
        ensures gives { IfSome result (λ interval. (samples : List ℤ) (given : List ℕ)
            → FrontStandsFor self.old samples given → FrontStandsFor self.new samples (given ++ interval ∷ [])) }
        ensures said { IfSome result (λ interval. IsSaid interval) }
        ensures none { IfNone result ((self.new ≡ self.old) × (self.old.tiles ≡ [])) }
        ensures less { OnSome result (intervals_left self.new < intervals_left self.old) }
        ensures goes { GoesOn self.old self.new }
    {
        if self.tiles.is_empty() {
            return None;
        }
        Some(self.tiles.remove(0))
    }

    /// Takes the intervals of the next cell that is judged, when those of the one before it have been
    /// given, and returns whether there is one.
    fn fill(&mut self) -> bool
        requires { self.old.tiles ≡ [] }
        ensures stands { (samples : List ℤ) (given : List ℕ) → FrontStandsFor self.old samples given
            → FrontStandsFor self.new samples given }
        ensures some { result ≡ true → 0 < length self.new.tiles }
        ensures none { result ≡ false → IsFrontSettled self.new }
        ensures less { result ≡ true → intervals_left self.new < intervals_left self.old }
        ensures goes { GoesOn self.old self.new }
    {
        let Some(judged) = self.judging.next() else {
            return false;
        };
        self.tiles = tiled(self.ticks, &judged);
        true
    }

    /// The next interval, and none if all that the samples bring have been given.
    pub fn next(&mut self) -> Option<u32>
        ensures gives { (samples : List ℤ) (given : List ℕ) → FrontStandsFor self.old samples given
            → GivesInterval self.new samples given result }
        ensures said { IfSome result (λ interval. IsSaid interval) }
        ensures settled { IfNone result (IsFrontSettled self.new) }
        ensures less { OnSome result (intervals_left self.new < intervals_left self.old) }
        ensures goes { GoesOn self.old self.new }
    {
        if let Some(interval) = self.give() {
            return Some(interval);
        }
        if self.fill() { self.give() } else { None }
    }
}
