//! How a run ended. Read next: `notes`.
ghost use Rattle.std.specs.Prelude.{◌≡◌};
ghost use Rattle.tc_command.specs.Status.{code_of, status_of, status_of_words};

use crate::stop::Stop;
use tc_job::WordsFault;

/// How a run ended.
#[derive(Clone, Copy)]
pub enum Status {
    /// The input was read to its end, and the whole output was written.
    Done,
    /// The words name no job.
    Usage,
    /// The input is not in the grammar of the command.
    Refused,
    /// The source failed.
    ReadFault,
    /// The sink failed.
    WriteFault,
    /// There was not enough memory.
    Memory,
    /// The input is longer than the command takes.
    Limit,
}

impl Status {
    /// The exit number of the program.
    pub fn code(self) -> u8
        ensures { result ≡ code_of self }
    {
        match self {
            Status::Done => 0,
            Status::Usage => 2,
            Status::Refused => 3,
            Status::ReadFault => 4,
            Status::WriteFault => 5,
            Status::Memory => 6,
            Status::Limit => 7,
        }
    }

    /// The status of a job that stopped.
    pub fn of_stop(stop: Stop) -> Status
        ensures { result ≡ status_of stop }
    {
        match stop {
            Stop::Refused(_) => Status::Refused,
            Stop::ReadFault => Status::ReadFault,
            Stop::WriteFault => Status::WriteFault,
            Stop::Limit => Status::Limit,
        }
    }

    /// The status of words that were not read.
    pub fn of_words(fault: WordsFault) -> Status
        ensures { result ≡ status_of_words fault }
    {
        match fault {
            WordsFault::Memory(_) => Status::Memory,
            _ => Status::Usage,
        }
    }
}
