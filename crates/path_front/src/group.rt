//! The mean of neighbouring samples. Read next: `steps`.
ghost use Rattle.std.specs.Prelude.{◌≡◌, ◌+◌, ◌*◌, ◌^◌, ◌<◌, ◌≤◌, ℕ, unsigned_abs, int_div, pos, IfSome, List, [], ◌∷◌};
ghost use Rattle.path_front.specs.Grid.{due, GroupStandsFor, IsSounds};
ghost use Rattle.path_front.specs.declared.group.Sounds.{Sounds};

use std::marker::Model;
use step_grid::MAX_SUMMED;

/// A sample of the sound, or the mean of some: clipped, and held besides.
#[derive(Clone, Copy)]
pub struct Sounds {
    pub clipped: i32,
    pub held: i32,
}

/// The sums of the samples that wait for a step.
#[derive(Drop)]
pub(crate) struct Group {
    many: u32,
    clipped: i64,
    held: i64,
}

impl Model for Group {
    ghost use Rattle.path_front.specs.Grid.{AreGrouped, GroupState};

    ghost Value = { GroupState };

    ghost view = { λ s. record { many = s.many; clipped = s.clipped; held = s.held } };

    ghost invariant = { λ s. AreGrouped (record { many = s.many; clipped = s.clipped; held = s.held }) };
}

/// The mean of `many` samples, from their sum.
fn mean(sum: i64, many: u32) -> i32
    requires some { 0 < many }
    requires most { many ≤ MAX_SUMMED }
    requires sum { unsigned_abs sum ≤ many * (2 ^ 15 + 2 ^ 14) }
    ensures value { result ≡ int_div sum (pos many) }
    ensures size { (most : ℕ) → unsigned_abs sum ≤ many * most → unsigned_abs result ≤ most }
{
    (sum / i64::from(many)) as i32
}

impl Group {
    /// No sample yet.
    pub(crate) fn new() -> Group
        ensures stands { (summed : ℕ) → GroupStandsFor summed result [] }
        ensures many { result.many ≡ 0 }
    {
        Group {
            many: 0,
            clipped: 0,
            held: 0,
        }
    }

    /// Takes the next sample, and gives the mean of `summed` samples if it is the last of them.
    pub(crate) fn add(&mut self, summed: u32, sounds: Sounds) -> Option<Sounds>
        requires room { self.old.many < summed }
        requires most { summed ≤ MAX_SUMMED }
        requires sounds { IsSounds sounds }
        ensures stands { (before : List Sounds) → GroupStandsFor summed self.old before
            → GroupStandsFor summed self.new (sounds ∷ before) }
        ensures due { (before : List Sounds) → GroupStandsFor summed self.old before
            → result ≡ due summed (sounds ∷ before) }
        ensures sounds { IfSome result (λ sounds. IsSounds sounds) }
        ensures room { self.new.many < summed }
    {
        let many = self.many + 1;
        let clipped = self.clipped + i64::from(sounds.clipped);
        let held = self.held + i64::from(sounds.held);
        if many < summed {
            *self = Group {
                many,
                clipped,
                held,
            };
            return None;
        }
        *self = Group::new();
        Some(Sounds {
            clipped: mean(clipped, many),
            held: mean(held, many),
        })
    }
}
