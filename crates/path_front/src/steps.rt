//! The steps of a sound. Read next: `latest`.
ghost use Rattle.std.specs.Prelude.{◌≡◌, ◌+◌, ◌*◌, ◌^◌, ◌<◌, ◌≤◌, ℤ, unsigned_abs, IfSome, IfNone, OnSome, List, []};
ghost use Rattle.std.specs.Prelude.{◌∷◌};
ghost use Rattle.cell_path.specs.Scores.{IsStep};
ghost use Rattle.step_grid.specs.Grid.{IsGrid};
ghost use Rattle.path_front.specs.Steps.{GivesStep, StepsStandFor, TakesStep};
ghost use Rattle.path_front.specs.declared.group.Sounds.{Sounds};

use crate::clip::clip;
use crate::group::{Group, Sounds};
use crate::hold::Hold;
use crate::sizes::Sizes;
use cell_path::Step;
use std::marker::Model;
use step_grid::Grid;

/// A step of the sound: for the path, and as it is without the hold.
#[derive(Clone, Copy)]
pub struct Heard {
    pub step: Step,
    pub sound: i32,
}

/// Samples on their way into steps.
#[derive(Drop)]
pub(crate) struct Steps {
    grid: Grid,
    clip: Sizes,
    hold: Hold,
    group: Group,
    /// How many steps of the latest sample, or of the latest mean, are not given yet.
    left: u32,
    latest: Sounds,
    levels: Sizes,
}

impl Model for Steps {
    ghost use Rattle.path_front.specs.Steps.{AreSteps, StepsState};

    ghost Value = { StepsState };

    ghost view = { λ s. record {
      grid = s.grid;
      clip = s.clip;
      hold = s.hold;
      group = s.group;
      left = s.left;
      latest = s.latest;
      levels = s.levels;
    } };

    ghost invariant = { λ s. AreSteps (record {
      grid = s.grid;
      clip = s.clip;
      hold = s.hold;
      group = s.group;
      left = s.left;
      latest = s.latest;
      levels = s.levels;
    }) };
}

impl Steps {
    /// Before the first sample.
    pub(crate) fn new(grid: Grid, least: u32) -> Steps
        requires grid { IsGrid grid }
        requires least { least ≤ 2 ^ 15 }
        ensures stands { StepsStandFor result [] [] }
        ensures least { result.hold.least ≡ least }
        ensures grid { result.grid ≡ grid }
        ensures left { result.left ≡ 0 }
    {
        Steps {
            grid,
            clip: Sizes::new(),
            hold: Hold::new(least),
            group: Group::new(),
            left: 0,
            latest: Sounds {
                clipped: 0,
                held: 0,
            },
            levels: Sizes::new(),
        }
    }

    /// Takes the next sample, when all steps of those before it have been given.
    pub(crate) fn feed(&mut self, sample: i16)
        requires given { self.old.left ≡ 0 }
        requires room { self.old.clip.count < 2 ^ 40 }
        ensures stands { (samples : List ℤ) (given : List Sounds) → StepsStandFor self.old samples given
            → StepsStandFor self.new (sample ∷ samples) given }
        ensures least { self.new.hold.least ≡ self.old.hold.least }
        ensures grid { self.new.grid ≡ self.old.grid }
        ensures count { self.new.clip.count ≡ self.old.clip.count + 1 }
        ensures steps { self.new.levels.count ≡ self.old.levels.count }
        ensures left { self.new.left ≤ 8 }
    {
        let clipped = clip(&mut self.clip, self.hold.peak(), sample);
        let held = self.hold.hold(clipped);
        let sounds = Sounds { clipped, held };
        match self.grid {
            Grid::Repeat(repeats) => {
                self.latest = sounds;
                self.left = repeats;
            }
            Grid::Sum(summed) => {
                if let Some(mean) = self.group.add(summed, sounds) {
                    self.latest = mean;
                    self.left = 1;
                }
            }
        }
    }

    /// The next step, and none if all that the samples bring have been given.
    pub(crate) fn next(&mut self) -> Option<Heard>
        requires room { self.old.levels.count + self.old.left ≤ 2 ^ 40 }
        ensures gives { (samples : List ℤ) (given : List Sounds) → StepsStandFor self.old samples given
            → GivesStep self.new samples given result }
        ensures step { IfSome result (λ heard. IsStep heard.step) }
        ensures sound { IfSome result (λ heard. unsigned_abs heard.sound ≤ 2 ^ 15) }
        ensures takes { OnSome result (TakesStep self.old self.new) }
        ensures none { IfNone result ((self.new ≡ self.old) × (self.old.left ≡ 0)) }
        ensures least { self.new.hold.least ≡ self.old.hold.least }
        ensures grid { self.new.grid ≡ self.old.grid }
        ensures count { self.new.clip.count ≡ self.old.clip.count }
    {
        self.left = self.left.checked_sub(1)?;
        self.levels.push(self.latest.clipped.unsigned_abs());
        Some(Heard {
            step: Step {
                sound: self.latest.held,
                level: self.levels.mean_times(1),
            },
            sound: self.latest.clipped,
        })
    }
}
