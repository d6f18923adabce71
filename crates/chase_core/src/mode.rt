//! What a chase is at between two frames, and what a command makes of it. Read next: `outcome`.
ghost use Rattle.std.specs.Prelude.{◌≡◌};
ghost use Rattle.chase_core.specs.Step.{after_command, state_of};

use crate::command::Command;
use crate::report::State;

/// A state with what belongs to it.
#[derive(Clone, Copy)]
pub(crate) enum Mode {
    /// Leaves the transport alone.
    Waiting,
    /// Goes to the label of this number.
    Locating(u32),
    /// Follows the master, not at its place yet.
    Pulling,
    /// Follows the master within half a frame.
    Locked,
}

/// What a command makes of a mode.
pub(crate) fn after_command(mode: Mode, command: Option<Command>) -> Mode
    ensures { result ≡ after_command command mode }
{
    match (command, mode) {
        (None, mode) | (Some(Command::Play), mode @ (Mode::Pulling | Mode::Locked)) => mode,
        (Some(Command::Play), Mode::Waiting | Mode::Locating(_)) => Mode::Pulling,
        (Some(Command::Wait), _) => Mode::Waiting,
        (Some(Command::Locate(target)), _) => Mode::Locating(target),
    }
}

/// The state of a mode.
pub(crate) fn state_of(mode: Mode) -> State
    ensures { result ≡ state_of mode }
{
    match mode {
        Mode::Waiting => State::Waiting,
        Mode::Locating(_) => State::Locating,
        Mode::Pulling => State::Pulling,
        Mode::Locked => State::Locked,
    }
}
