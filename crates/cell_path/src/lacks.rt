//! What the best paths lack of the sizes of the sound. Read next: `start`.
ghost use Rattle.std.specs.Prelude.{◌≡◌, ℕ, ◌+◌, ◌%◌, ◌<◌, ◌≤◌, List, [], ◌∷◌, length};
ghost use Rattle.cell_path.specs.declared.cell.Step.{Step};
ghost use Rattle.cell_path.specs.Kept.{lack_ago};
ghost use Rattle.cell_path.specs.Scores.{AreSteps};
ghost use Rattle.cell_path.specs.StandsFor.{IsBestAt, LacksStandFor};
ghost use Rattle.cell_path.specs.Trying.{LacksLeast};

use crate::cell::Step;
use crate::four::{Four, less, minus};
use crate::ring::write;
use std::marker::Model;

/// An unfinished path ends with one of so many latest steps: fewer are behind it than the longest cell has.
pub const LATEST: usize = 96;

/// What the best path of all lacks at each of the latest 128 steps, in a ring.
#[derive(Drop)]
pub(crate) struct Lacks {
    ring: [u32; 132],
    next: usize,
    /// The sizes of the sound so far, summed.
    sizes: u32,
}

impl Model for Lacks {
    ghost use Rattle.cell_path.specs.Kept.{LacksState, AreLacks};

    ghost Value = { LacksState };

    ghost view = { λ s. record { ring = s.ring; next = s.next; sizes = s.sizes } };

    ghost invariant = { λ s. AreLacks (record { ring = s.ring; next = s.next; sizes = s.sizes }) };
}

impl Lacks {
    /// Before the first step.
    pub(crate) fn new() -> Lacks
        ensures next { result.next ≡ 0 }
        ensures stands { LacksStandFor result [] }
    {
        Lacks {
            ring: [0; 132],
            next: 0,
            sizes: 0,
        }
    }

    /// Takes the next four steps, with the best paths of all to each.
    pub(crate) fn push(&mut self, a: Step, b: Step, c: Step, d: Step, best: Four)
        ensures next { self.new.next ≡ (self.old.next + 4) % 128 }
        ensures stands { (steps : List Step) → AreSteps (d ∷ c ∷ b ∷ a ∷ [])
            → ((step : ℕ) → step < 4 → IsBestAt (d ∷ c ∷ b ∷ a ∷ steps) best step)
            → LacksStandFor self.old steps → LacksStandFor self.new (d ∷ c ∷ b ∷ a ∷ steps) }
    {
        let first = self.sizes.wrapping_add(a.sound.unsigned_abs());
        let second = first.wrapping_add(b.sound.unsigned_abs());
        let third = second.wrapping_add(c.sound.unsigned_abs());
        let fourth = third.wrapping_add(d.sound.unsigned_abs());
        let at = self.next;
        let lacks = minus([first, second, third, fourth], best.numbers);
        write(&mut self.ring, at, lacks);
        self.next = (self.next + 4) % 128;
        self.sizes = fourth;
    }

    /// What it lacked so long ago.
    fn ago(&self, ago: usize) -> u32
        requires { ago < 96 }
        ensures { result ≡ lack_ago self.now ago }
    {
        self.ring[(self.next + 127 - ago) % 128]
    }

    /// How many steps ago it lacked least; of equal ones the latest.
    pub(crate) fn least(&self) -> usize
        ensures latest { result < 96 }
        ensures least { (steps : List Step) → 2_048 ≤ length steps → AreSteps steps → LacksStandFor self.now steps
            → LacksLeast steps 96 result }
    {
        let mut least = 0;
        for ago in 1..LATEST {
            if less(self.ago(ago), self.ago(least)) {
                least = ago;
            }
        }
        least
    }
}
