//! Why an engine takes no more of its input. Read next: `stop`.
ghost use Rattle.std.specs.Prelude.{◌≡◌};
ghost use Rattle.tc_command.specs.Halt.{stop_of};

use crate::input_fault::InputFault;
use crate::stop::Stop;

/// Why an engine takes no more of its input. Of pulls and pushes that fail it knows nothing.
#[derive(Clone, Copy)]
pub enum Halt {
    /// The input has a fault of the command's grammar.
    Refused(InputFault),
    /// The input is longer than the command takes.
    Limit,
}

impl Halt {
    /// The stop of a job whose engine halts so.
    pub(crate) fn stop(self) -> Stop
        ensures { result ≡ stop_of self }
    {
        match self {
            Halt::Refused(fault) => Stop::Refused(fault),
            Halt::Limit => Stop::Limit,
        }
    }
}
