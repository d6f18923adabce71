//! The state inside a one. Read next: `biphase/src/tolerance.rt`, and after a one `at_cell`.
ghost use Rattle.std.specs.Prelude.{◌≡◌, ℕ, ◌≤◌, ◌+◌, List};
ghost use Rattle.limits.specs.declared.recording.TheConstants.{MAX_INTERVAL};
ghost use Rattle.biphase.specs.Chain.{IsNextOne};
ghost use Rattle.biphase.specs.Tolerance.{kept_by, kept_next, Fits};
ghost use Rattle.cell_tracker.specs.Answer.{KeepsOfMidCell};
ghost use Rattle.cell_tracker.specs.State.{held_at_cell, mid_cell_with, search_from};
ghost use Rattle.cell_tracker.specs.Stretch.{Stretch};
ghost use Rattle.cell_tracker.specs.StandsFor.{MidCellStandsFor, StandsAfterMidCell};
ghost use Rattle.cell_tracker.specs.declared.mid_cell.FromMidCell.TheVariants.{One, Broken};

use crate::at_cell::AtCell;
use crate::hunting::Hunting;
use biphase::{LatestFour, Profile, is_one};
use limits::MAX_INTERVAL;
use std::marker::Model;

/// A stretch is open and ends one interval before the last, which may be the first half of a one. Of the
/// cells so far it holds what `AtCell` does.
#[derive(Clone, Copy)]
pub struct MidCell {
    profile: Profile,
    reference: u32,
    half: u32,
}

impl Model for MidCell {
    ghost use Rattle.std.specs.Prelude.{◌≤◌};
    ghost use Rattle.limits.specs.declared.recording.TheConstants.{MAX_INTERVAL};
    ghost use Rattle.cell_tracker.specs.State.{MidCellHeld};

    ghost Value = { MidCellHeld };

    ghost view = { λ m. record { profile = m.profile; reference = m.reference; half = m.half } };

    ghost invariant = { λ m. m.half ≤ MAX_INTERVAL };

    ghost inverse = { λ v. record { profile = v.profile; reference = v.reference; half = v.half } };
}

/// What an interval does to `MidCell`.
#[derive(Clone, Copy)]
pub enum FromMidCell {
    /// The waiting half and the interval are a one of the stretch, with these halves in ticks.
    One(AtCell, u32, u32),
    /// The stretch breaks at the interval.
    Broken(Hunting),
}

impl MidCell {
    /// Inside a one, with the number that the profile compares with and the waiting half, in ticks.
    pub fn new(profile: Profile, reference: u32, half: u32) -> MidCell
        requires { half ≤ MAX_INTERVAL }
        ensures { result ≡ record { profile = profile; reference = reference; half = half } }
    {
        MidCell {
            profile,
            reference,
            half,
        }
    }

    /// What the profile compares with: the length of the last cell, or the sum of the latest four, in
    /// ticks.
    pub fn reference(&self) -> u32
        ensures { result ≡ self.now.reference }
    {
        self.reference
    }

    /// The waiting half, in ticks.
    pub fn half(&self) -> u32
        ensures { result ≡ self.now.half }
    {
        self.half
    }

    /// Takes the next interval, of `y` ticks, with the four lengths beside this state.
    #[inline(always)]
    pub fn feed(self, four: &mut LatestFour, y: u32) -> FromMidCell
        requires least { 1 ≤ y }
        requires most { y ≤ MAX_INTERVAL }
        requires fits { Fits self.profile self.reference four.old }

        // The answer by the tests of `biphase`.
        ensures one { let latest = kept_by self.profile self.reference four.old in
            IsNextOne self.profile latest self.half y
            → result ≡ One (held_at_cell self.profile (kept_next self.profile latest (self.half + y))) self.half y }
        ensures broken { let latest = kept_by self.profile self.reference four.old in
            ¬ IsNextOne self.profile latest self.half y
            → result ≡ Broken (search_from self.profile y) }

        // What the answer and the four lengths keep of the state and the interval.
        ensures keeps { KeepsOfMidCell (mid_cell_with self four.old) y result four.new }

        // What it means for the stretches of the intervals so far.
        ensures stands { (intervals : List ℕ) (earlier : List Stretch) (stretch : Stretch)
            → MidCellStandsFor (mid_cell_with self four.old) intervals earlier stretch
            → StandsAfterMidCell result four.new y intervals earlier stretch }
    {
        let (profile, reference, half) = (self.profile, self.reference, self.half);
        if is_one(profile, reference, half, y) {
            let next = AtCell::new(profile, profile.after(four, half + y));
            FromMidCell::One(next, half, y)
        } else {
            FromMidCell::Broken(Hunting::after(profile, y))
        }
    }
}
