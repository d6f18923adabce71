//! The exit number of the program.
ghost use Rattle.std.specs.Prelude.{◌≡◌};
ghost use Rattle.tc_top.specs.Exit.{exit_number};

use std::io::ErrorKind;
use tc_command::Status;

/// The exit number if the arguments are no text. It is the program's own: no run ends with it.
pub const NO_ARGUMENTS: u8 = 8;

/// Why there are no arguments, so that nothing was run.
#[derive(Clone, Copy)]
pub enum NoArguments {
    /// There was not enough memory for them.
    Memory,
    /// One of them is no text (UTF-8), or they can't be had for another reason.
    Other,
}

impl NoArguments {
    /// By the kind of the error that std answers in place of the arguments.
    pub fn by_kind(kind: ErrorKind) -> NoArguments
        ensures memory { kind ≡ ErrorKind.OutOfMemory → result ≡ NoArguments.Memory }
        ensures other { ¬ kind ≡ ErrorKind.OutOfMemory → result ≡ NoArguments.Other }
    {
        match kind {
            ErrorKind::OutOfMemory => NoArguments::Memory,
            _ => NoArguments::Other,
        }
    }
}

/// The exit number of a run, or of a program without arguments.
pub fn exit_number(ended: Result<Status, NoArguments>) -> u8
    ensures { result ≡ exit_number ended }
{
    match ended {
        Ok(status) => status.code(),
        Err(NoArguments::Memory) => Status::Memory.code(),
        Err(NoArguments::Other) => NO_ARGUMENTS,
    }
}
