//! The state between stretches. Read next: `biphase/src/pair.rt`, and at a lock `at_cell` or `mid_cell`.
ghost use Rattle.biphase.specs.Tolerance.{IsFirstHalf};
ghost use Rattle.std.specs.Prelude.{◌≡◌, ℕ, ◌≤◌, ◌<◌, List, [], IfSome};
ghost use Rattle.limits.specs.declared.recording.TheConstants.{MAX_INTERVAL};
ghost use Rattle.biphase.specs.Pair.{AreUnequal};
ghost use Rattle.biphase.specs.Tolerance.{kept_at_lock};
ghost use Rattle.cell_tracker.specs.Answer.{KeepsOfHunting};
ghost use Rattle.cell_tracker.specs.State.{held_at_cell, held_mid_cell, search_from};
ghost use Rattle.cell_tracker.specs.Stretch.{Stretch};
ghost use Rattle.cell_tracker.specs.StandsFor.{HuntingStandsFor, StandsAfterHunting};
ghost use Rattle.cell_tracker.specs.declared.hunting.FromHunting.TheVariants.{Hunt, StartAt, StartMid, StartBroken};

use crate::at_cell::AtCell;
use crate::mid_cell::MidCell;
use biphase::{LatestFour, PairKind, Profile, kind, may_begin_one};
use limits::MAX_INTERVAL;
use std::marker::Model;

/// No stretch is open: the tracker looks for two unequal intervals.
#[derive(Clone, Copy)]
pub struct Hunting {
    profile: Profile,
    before: Option<u32>,
}

impl Model for Hunting {
    ghost use Rattle.std.specs.Prelude.{◌≤◌, IfSome};
    ghost use Rattle.limits.specs.declared.recording.TheConstants.{MAX_INTERVAL};
    ghost use Rattle.cell_tracker.specs.State.{HuntingState};

    ghost Value = { HuntingState };

    ghost view = { λ a. record { profile = a.profile; before = a.before } };

    ghost invariant = { λ a. IfSome a.before (λ z. z ≤ MAX_INTERVAL) };

    ghost inverse = { λ v. record { profile = v.profile; before = v.before } };
}

/// What an interval does to `Hunting`.
#[derive(Clone, Copy)]
pub enum FromHunting {
    /// The search goes on.
    Hunt(Hunting),
    /// The interval is the first zero of a stretch.
    StartAt(AtCell),
    /// The interval before was the first zero of a stretch, of this length in ticks, and the interval
    /// may be a first half.
    StartMid(MidCell, u32),
    /// The interval before was the first zero of a stretch, of this length in ticks, and the stretch
    /// breaks at the interval.
    StartBroken(Hunting, u32),
}

impl Hunting {
    /// A search that begins, with no interval before.
    pub fn new(profile: Profile) -> Hunting
        ensures value { result ≡ record { profile = profile; before = None } }
        ensures stands { HuntingStandsFor result [] [] }
    {
        Hunting {
            profile,
            before: None,
        }
    }

    /// A search that begins at an interval of `x` ticks.
    pub(crate) fn after(profile: Profile, x: u32) -> Hunting
        requires { x ≤ MAX_INTERVAL }
        ensures { result ≡ record { profile = profile; before = Some x } }
    {
        Hunting {
            profile,
            before: Some(x),
        }
    }

    /// The interval before, in ticks, if there was one since the search began.
    pub fn before(&self) -> Option<u32>
        ensures { result ≡ self.now.before }
    {
        self.before
    }

    /// Takes the next interval, of `x` ticks, and writes the four lengths if a stretch begins.
    pub fn feed(self, four: &mut LatestFour, x: u32) -> FromHunting
        requires least { 1 ≤ x }
        requires most { x ≤ MAX_INTERVAL }

        // The answer by the tests of `biphase`.
        ensures first { self.before ≡ None → result ≡ Hunt (search_from self.profile x) }
        ensures equal { IfSome self.before (λ z. ¬ AreUnequal self.profile z x
            → result ≡ Hunt (search_from self.profile x)) }
        ensures rising { IfSome self.before (λ z. AreUnequal self.profile z x → z < x
            → result ≡ StartAt (held_at_cell self.profile (kept_at_lock self.profile x))) }
        ensures falling { IfSome self.before (λ z. AreUnequal self.profile z x → x < z
            → IsFirstHalf self.profile (kept_at_lock self.profile z) x
            → result ≡ StartMid (held_mid_cell self.profile (kept_at_lock self.profile z) x) z) }
        ensures broken { IfSome self.before (λ z. AreUnequal self.profile z x → x < z
            → ¬ IsFirstHalf self.profile (kept_at_lock self.profile z) x
            → result ≡ StartBroken (search_from self.profile x) z) }

        // What the answer and the four lengths keep of the state and the interval.
        ensures keeps { KeepsOfHunting self x result four.new }

        // What it means for the stretches of the intervals so far.
        ensures stands { (intervals : List ℕ) (stretches : List Stretch)
            → HuntingStandsFor self intervals stretches
            → StandsAfterHunting result four.new x intervals stretches }
    {
        let profile = self.profile;
        let hunting = Hunting::after(profile, x);
        let Some(before) = self.before else {
            return FromHunting::Hunt(hunting);
        };
        match kind(profile, before, x) {
            PairKind::Same | PairKind::Wild => FromHunting::Hunt(hunting),
            PairKind::Step => {
                if before < x {
                    return FromHunting::StartAt(AtCell::new(profile, profile.at_lock(four, x)));
                }
                let reference = profile.at_lock(four, before);
                if may_begin_one(profile, reference, x) {
                    FromHunting::StartMid(MidCell::new(profile, reference, x), before)
                } else {
                    FromHunting::StartBroken(hunting, before)
                }
            }
        }
    }
}
