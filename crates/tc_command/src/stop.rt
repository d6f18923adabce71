//! Why a job stopped before its end. Read next: `status`.
use crate::input_fault::InputFault;
use tc_io::Failed;

/// Why a job stopped before its end.
#[derive(Clone, Copy)]
pub enum Stop {
    /// The input has a fault of the command's grammar.
    Refused(InputFault),
    /// A pull failed.
    ReadFault,
    /// A push on the output failed.
    WriteFault,
    /// The input is longer than the command takes.
    Limit,
}

// Of a push that failed. A pull that failed stops a job as `ReadFault`.
impl From<Failed> for Stop {
    ghost use Rattle.std.specs.Prelude.{◌≡◌};
    ghost use Rattle.tc_command.specs.declared.stop.Stop.TheVariants as stops;

    ghost from_gives = { λ _ stop. stop ≡ stops.WriteFault };

    fn from(_: Failed) -> Stop {
        Stop::WriteFault
    }
}
