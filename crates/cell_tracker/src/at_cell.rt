//! The state at the end of a cell. Read next: `biphase/src/tolerance.rt`, and after a first half `mid_cell`.
ghost use Rattle.std.specs.Prelude.{◌≡◌, ℕ, ◌≤◌, List};
ghost use Rattle.limits.specs.declared.recording.TheConstants.{MAX_INTERVAL};
ghost use Rattle.biphase.specs.Tolerance.{IsFirstHalf};
ghost use Rattle.biphase.specs.Chain.{IsNextZero};
ghost use Rattle.biphase.specs.Tolerance.{kept_by, kept_next, Fits};
ghost use Rattle.cell_tracker.specs.Answer.{KeepsOfAtCell};
ghost use Rattle.cell_tracker.specs.State.{at_cell_with, held_at_cell, held_mid_cell, search_from};
ghost use Rattle.cell_tracker.specs.Stretch.{Stretch};
ghost use Rattle.cell_tracker.specs.StandsFor.{AtCellStandsFor, StandsAfterAtCell};
ghost use Rattle.cell_tracker.specs.declared.at_cell.FromAtCell.TheVariants.{Zero, Half, Broken};

use crate::hunting::Hunting;
use crate::mid_cell::MidCell;
use biphase::{LatestFour, Profile, is_zero, may_begin_one};
use limits::MAX_INTERVAL;
use std::marker::Model;

/// A stretch is open and ends with the last interval. Of the cells so far it holds the number that its
/// profile compares with; the lengths of the latest four are kept beside it.
#[derive(Clone, Copy)]
pub struct AtCell {
    profile: Profile,
    reference: u32,
}

impl Model for AtCell {
    ghost use Rattle.cell_tracker.specs.State.{AtCellHeld};

    ghost Value = { AtCellHeld };

    ghost view = { λ a. record { profile = a.profile; reference = a.reference } };

    ghost inverse = { λ v. record { profile = v.profile; reference = v.reference } };
}

/// What an interval does to `AtCell`.
#[derive(Clone, Copy)]
pub enum FromAtCell {
    /// The interval is a zero of the stretch.
    Zero(AtCell),
    /// The interval may be the first half of a one.
    Half(MidCell),
    /// The stretch breaks at the interval.
    Broken(Hunting),
}

impl AtCell {
    /// At the end of a cell, with the number that the profile compares with, in ticks.
    pub fn new(profile: Profile, reference: u32) -> AtCell
        ensures { result ≡ record { profile = profile; reference = reference } }
    {
        AtCell { profile, reference }
    }

    /// What the profile compares with: the length of the last cell, or the sum of the latest four, in
    /// ticks.
    pub fn reference(&self) -> u32
        ensures { result ≡ self.now.reference }
    {
        self.reference
    }

    /// Takes the next interval, of `x` ticks, with the four lengths beside this state.
    #[inline(always)]
    pub fn feed(self, four: &mut LatestFour, x: u32) -> FromAtCell
        requires least { 1 ≤ x }
        requires most { x ≤ MAX_INTERVAL }
        requires fits { Fits self.profile self.reference four.old }

        // The answer by the tests of `biphase`.
        ensures zero { let latest = kept_by self.profile self.reference four.old in IsNextZero self.profile latest x
            → result ≡ Zero (held_at_cell self.profile (kept_next self.profile latest x)) }
        ensures half { let latest = kept_by self.profile self.reference four.old in IsFirstHalf self.profile latest x
            → result ≡ Half (held_mid_cell self.profile latest x) }
        ensures broken { let latest = kept_by self.profile self.reference four.old in ¬ IsNextZero self.profile latest x
            → ¬ IsFirstHalf self.profile latest x → result ≡ Broken (search_from self.profile x) }

        // What the answer and the four lengths keep of the state and the interval.
        ensures keeps { KeepsOfAtCell (at_cell_with self four.old) x result four.new }

        // What it means for the stretches of the intervals so far.
        ensures stands { (intervals : List ℕ) (earlier : List Stretch) (stretch : Stretch)
            → AtCellStandsFor (at_cell_with self four.old) intervals earlier stretch
            → StandsAfterAtCell result four.new x intervals earlier stretch }
    {
        let (profile, reference) = (self.profile, self.reference);
        if is_zero(profile, reference, x) {
            FromAtCell::Zero(AtCell::new(profile, profile.after(four, x)))
        } else if may_begin_one(profile, reference, x) {
            FromAtCell::Half(MidCell::new(profile, reference, x))
        } else {
            FromAtCell::Broken(Hunting::after(profile, x))
        }
    }
}
