//! The states of the tracker, and what an interval does to each. Read next: `cell_tracker/src/hunting.rt`, and
//! with what it answers `latest_cells`.
ghost use Rattle.std.specs.Prelude.{◌≤◌};
ghost use Rattle.limits.specs.declared.recording.TheConstants.{MAX_INTERVAL};
ghost use Rattle.direction_reader.specs.KeptStep.{IsStepped};
ghost use Rattle.direction_reader.specs.Tracking.{tracking_with, StateFits};

use biphase::{LatestFour, Profile};
use cell_tracker::{AtCell, FromAtCell, FromHunting, FromMidCell, Hunting, MidCell};
use limits::MAX_INTERVAL;

/// A state of the tracker, in numbers, so that no profile is written with each cell. Most intervals find
/// it at the end of a cell, and the compiler tests the first variant first if another one's arm
/// comes first in a `match`.
#[derive(Clone, Copy)]
pub enum State {
    /// With the number that the profile compares with.
    AtCell(u32),
    /// With this number, and the waiting half.
    MidCell { reference: u32, half: u32 },
    Hunting(Hunting),
}

/// What an interval brought to the stretch.
#[derive(Clone, Copy)]
pub enum Step {
    /// No cell ended.
    Nothing,
    /// The interval is the first zero of a stretch.
    FirstZero,
    /// The interval before, of this length in ticks, is the first zero of a stretch.
    ZeroBefore(u32),
    /// A cell of this bit ended with the interval.
    Cell(bool),
    /// The stretch broke at the interval.
    Break,
}

impl State {
    /// Takes an interval, of `x` ticks, with the profile and the latest four lengths beside this state.
    #[inline(always)]
    pub fn step(&mut self, profile: Profile, four: &mut LatestFour, x: u32) -> Step
        requires least { 1 ≤ x }
        requires most { x ≤ MAX_INTERVAL }
        requires fits { StateFits profile self.old four.old }
        ensures fits { StateFits profile self.new four.new }
        ensures stepped { IsStepped (tracking_with profile self.old four.old) x
            (tracking_with profile self.new four.new) result }
    {
        match self {
            State::Hunting(hunting) => match hunting.feed(four, x) {
                FromHunting::Hunt(next) => {
                    *hunting = next;
                    Step::Nothing
                }
                FromHunting::StartAt(at_cell) => {
                    *self = State::AtCell(at_cell.reference());
                    Step::FirstZero
                }
                FromHunting::StartMid(mid_cell, zero) => {
                    *self = State::MidCell {
                        reference: mid_cell.reference(),
                        half: mid_cell.half(),
                    };
                    Step::ZeroBefore(zero)
                }
                FromHunting::StartBroken(next, _) => {
                    *hunting = next;
                    Step::Break
                }
            },
            State::MidCell { reference, half } => {
                let mid_cell = MidCell::new(profile, *reference, *half);
                match mid_cell.feed(four, x) {
                    FromMidCell::One(at_cell, _, _) => {
                        *self = State::AtCell(at_cell.reference());
                        Step::Cell(true)
                    }
                    FromMidCell::Broken(hunting) => {
                        *self = State::Hunting(hunting);
                        Step::Break
                    }
                }
            }
            State::AtCell(reference) => {
                let at_cell = AtCell::new(profile, *reference);
                match at_cell.feed(four, x) {
                    FromAtCell::Zero(next) => {
                        *reference = next.reference();
                        Step::Cell(false)
                    }
                    FromAtCell::Half(mid_cell) => {
                        *self = State::MidCell {
                            reference: mid_cell.reference(),
                            half: mid_cell.half(),
                        };
                        Step::Nothing
                    }
                    FromAtCell::Broken(hunting) => {
                        *self = State::Hunting(hunting);
                        Step::Break
                    }
                }
            }
        }
    }
}
