//! The chase and its step. Read next: `transport_model/src/transport.rt`, which moves by what a chase says.
ghost use Rattle.std.specs.Prelude.{◌≡◌, ◌<◌, ◌≤◌, ◌↔◌, ℤ, unsigned_abs, Some, None, IfSome, IsSomeAnd};
ghost use Rattle.tc_address.specs.Numbering.{day_length};
ghost use Rattle.transport_model.specs.Move.{day_of};
ghost use Rattle.chase_core.specs.declared.mode.Mode.TheVariants as modes;
ghost use Rattle.chase_core.specs.declared.report.Loss.TheVariants.{NoCode, Window};
ghost use Rattle.chase_core.specs.Step.{after_command, state_of, error_to, outcome_of, step_of, report_of, chase_after};
ghost use Rattle.chase_core.specs.Step.{IsCommandOf, IsModeOf};

use crate::command::{Command, Master};
use crate::mode::{Mode, after_command, state_of};
use crate::outcome::{Outcome, kept, located, pulled, still};
use crate::report::{Loss, State, StepReport};
use std::marker::Model;
use tc_address::{Count, day_subframes, shortest};

/// A chase of a count.
#[derive(Clone, Copy)]
pub struct Chase {
    count: Count,
    mode: Mode,
}

impl Model for Chase {
    ghost use Rattle.chase_core.specs.Step.{ChaseState, IsModeOf};

    ghost Value = { ChaseState };

    ghost view = { λ c. record { count = c.count; mode = c.mode } };

    ghost invariant = { λ c. IsModeOf c.count c.mode };

    ghost inverse = { λ v. record { count = v.count; mode = v.mode } };
}

/// The shortest way from a position to the first subframe of a label, in subframes.
fn error_to(count: Count, position: u32, number: u32) -> i32
    requires position { position < day_of count }
    requires number { number < day_length count }
    ensures { result ≡ error_to count position number }
{
    shortest(day_subframes(count), position, 80 * number)
}

/// What comes of a frame in a mode.
fn outcome_of(count: Count, mode: Mode, master: Option<Master>, position: u32) -> Outcome
    requires mode { IsModeOf count mode }
    requires master { IfSome master (λ m. m.number < day_length count) }
    requires position { position < day_of count }
    ensures value { result ≡ outcome_of count mode master position }
    ensures order { unsigned_abs result.order ≤ 2_560 }
{
    match (mode, master) {
        (Mode::Waiting, _) => still(Mode::Waiting, None),
        (Mode::Locating(target), _) => located(target, error_to(count, position, target)),
        (Mode::Pulling, None) => still(Mode::Pulling, None),
        (Mode::Pulling, Some(master)) => {
            pulled(master.direction, error_to(count, position, master.number))
        }
        (Mode::Locked, None) => still(Mode::Pulling, Some(Loss::NoCode)),
        (Mode::Locked, Some(master)) => {
            kept(master.direction, error_to(count, position, master.number))
        }
    }
}

impl Chase {
    /// A chase that leaves the transport alone.
    pub fn new(count: Count) -> Chase
        ensures { result ≡ record { count = count; mode = modes.Waiting } }
    {
        Chase {
            count,
            mode: Mode::Waiting,
        }
    }

    /// What the chase does.
    pub fn state(&self) -> State
        ensures { result ≡ state_of self.now.mode }
    {
        state_of(self.mode)
    }

    /// Works one frame: applies the command, and then follows the master, or goes on to its target,
    /// from the transport's position in subframes. A slip of the transport shows in the error of the
    /// next frame.
    pub fn step(
        &mut self,
        command: Option<Command>,
        master: Option<Master>,
        position: u32,
    ) -> StepReport
        requires command { IfSome command (λ c. IsCommandOf self.old.count c) }
        requires master { IfSome master (λ m. m.number < day_length self.old.count) }
        requires position { position < day_of self.old.count }

        // StepReport and state by the table.
        ensures report { result ≡ report_of (step_of self.old command master position) }
        ensures after { self.new ≡ chase_after self.old (step_of self.old command master position) }

        // An order that `Transport::apply` takes.
        ensures order { unsigned_abs result.order ≤ 2_560 }

        // Each loss has its cause, and each cause its loss.
        ensures no_code { (result.loss ≡ Some NoCode)
            ↔ ((after_command command self.old.mode ≡ modes.Locked) × (master ≡ None)) }
        ensures window { (error : ℤ) → (result.loss ≡ Some (Window error))
            ↔ ((after_command command self.old.mode ≡ modes.Locked)
            × IsSomeAnd master (λ m. (error ≡ error_to self.old.count position m.number) × (40 < unsigned_abs error))) }
    {
        let mode = after_command(self.mode, command);
        let outcome = outcome_of(self.count, mode, master, position);
        self.mode = outcome.mode;
        StepReport {
            state: state_of(outcome.mode),
            error: outcome.error,
            order: outcome.order,
            loss: outcome.loss,
        }
    }
}
