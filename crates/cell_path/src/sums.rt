//! The sums of the sound up to each of the latest steps. Read next: `rows`.
ghost use Rattle.std.specs.Prelude.{◌≡◌, ℕ, ◌+◌, ◌-◌, ◌%◌, ◌<◌, ◌≤◌, List, [], ◌∷◌};
ghost use Rattle.cell_path.specs.declared.cell.Step.{Step};
ghost use Rattle.cell_path.specs.Four.{at_step};
ghost use Rattle.cell_path.specs.Kept.{sum_ago};
ghost use Rattle.cell_path.specs.Scores.{AreSteps};
ghost use Rattle.cell_path.specs.StandsFor.{SumsStandFor};

use crate::cell::Step;
use crate::ring::{read, write};
use std::marker::Model;

/// The sums up to the latest 128 steps, in a ring. Before the sound they are 0.
#[derive(Drop)]
pub(crate) struct Sums {
    ring: [u32; 132],
    next: usize,
}

impl Model for Sums {
    ghost use Rattle.cell_path.specs.Kept.{SumsState, AreSums};

    ghost Value = { SumsState };

    ghost view = { λ s. record { ring = s.ring; next = s.next } };

    ghost invariant = { λ s. AreSums (record { ring = s.ring; next = s.next }) };
}

impl Sums {
    /// Before the first step.
    pub(crate) fn new() -> Sums
        ensures next { result.next ≡ 0 }
        ensures stands { SumsStandFor result [] }
    {
        Sums {
            ring: [0; 132],
            next: 0,
        }
    }

    /// The sums up to `ago` steps before each of the latest four.
    #[inline(always)]
    pub(crate) fn four(&self, ago: usize) -> [u32; 4]
        requires { ago ≤ 96 }
        ensures { (step : ℕ) → step < 4 → at_step result step ≡ sum_ago self.now (3 - step + ago) }
    {
        read(&self.ring, (self.next + 124 - ago) % 128)
    }

    /// Takes the sound of the next four steps.
    pub(crate) fn push(&mut self, a: Step, b: Step, c: Step, d: Step)
        ensures next { self.new.next ≡ (self.old.next + 4) % 128 }
        ensures stands { (steps : List Step) → AreSteps (d ∷ c ∷ b ∷ a ∷ []) → SumsStandFor self.old steps
            → SumsStandFor self.new (d ∷ c ∷ b ∷ a ∷ steps) }
    {
        let first = self.four(0)[3].wrapping_add(a.sound.cast_unsigned());
        let second = first.wrapping_add(b.sound.cast_unsigned());
        let third = second.wrapping_add(c.sound.cast_unsigned());
        let fourth = third.wrapping_add(d.sound.cast_unsigned());
        let at = self.next;
        write(&mut self.ring, at, [first, second, third, fourth]);
        self.next = (self.next + 4) % 128;
    }
}
