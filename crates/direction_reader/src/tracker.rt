//! Where the tracker is, and what an interval does to it. Read next: `state`.
ghost use Rattle.std.specs.Prelude.{◌≡◌, ◌≤◌, ◌↔◌, [], None, IsTrue};
ghost use Rattle.limits.specs.declared.recording.TheConstants.{MAX_INTERVAL};
ghost use Rattle.direction_reader.specs.KeptStep.{IsStepped};
ghost use Rattle.direction_reader.specs.StandsFor.{TrackerStandsFor, IsAtCell};
ghost use Rattle.direction_reader.specs.Tracking.{searching};

use crate::state::{State, Step};
use biphase::{LatestFour, Profile};
use cell_tracker::Hunting;
use limits::MAX_INTERVAL;
use std::marker::Model;

/// The tracker: a state, and beside it the profile and the lengths of the latest four cells of its
/// stretch. They are kept in one place, so that no state carries them.
#[derive(Drop)]
pub struct Tracker {
    profile: Profile,
    state: State,
    four: LatestFour,
}

impl Model for Tracker {
    ghost use Rattle.direction_reader.specs.Tracking.{Tracking, tracking_with, StateFits};

    ghost Value = { Tracking };

    ghost view = { λ t. tracking_with t.profile t.state t.four };

    ghost invariant = { λ t. StateFits t.profile t.state t.four };
}

impl Tracker {
    /// A search that begins.
    pub fn new(profile: Profile) -> Tracker
        ensures value { result ≡ searching profile }
        ensures stands { TrackerStandsFor result [] [] None }
    {
        Tracker {
            profile,
            state: State::Hunting(Hunting::new(profile)),
            four: LatestFour::new(),
        }
    }

    /// Takes an interval, of `x` ticks.
    #[inline(always)]
    pub fn step(&mut self, x: u32) -> Step
        requires least { 1 ≤ x }
        requires most { x ≤ MAX_INTERVAL }
        ensures { IsStepped self.old x self.new result }
    {
        self.state.step(self.profile, &mut self.four, x)
    }

    /// Whether a cell ended with the latest interval.
    pub fn is_at_cell(&self) -> bool
        ensures { IsTrue result ↔ IsAtCell self.now }
    {
        match self.state {
            State::AtCell(_) => true,
            State::MidCell { .. } | State::Hunting(_) => false,
        }
    }
}
