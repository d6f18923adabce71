//! Why a chase stopped before its end: its status and its note. Read next: `tc_command/src/notes.rt`, which pushes
//! it.
ghost use Rattle.std.specs.Prelude.{◌≡◌};
ghost use Rattle.chase_command.specs.Stop.{note_of, status_of};

use chase_script::RowFault;
use line_text::{Text, push_any_number, push_bytes};
use tc_command::Status;

/// Why a chase stopped before its end.
#[derive(Clone, Copy)]
pub(crate) enum ChaseStop {
    /// The script has a refused row.
    Refused(RowFault),
    /// A pull failed.
    ReadFault,
    /// A push on the output failed.
    WriteFault,
    /// There was not enough memory for the script or its rows.
    Memory,
    /// The script is longer than a chase takes.
    Limit,
}

impl ChaseStop {
    ghost use Rattle.chase_command.specs.Stop.{note_of, status_of};

    /// The status that it leaves.
    pub(crate) fn status(self) -> Status
        ensures { result ≡ status_of self }
    {
        match self {
            ChaseStop::Refused(_) => Status::Refused,
            ChaseStop::ReadFault => Status::ReadFault,
            ChaseStop::WriteFault => Status::WriteFault,
            ChaseStop::Memory => Status::Memory,
            ChaseStop::Limit => Status::Limit,
        }
    }

    /// Its note: of a refusal the first refused row and its least refused column.
    pub(crate) fn note(self) -> Text
        ensures { result.items ≡ note_of self }
    {
        let mut line = Text::new();
        match self {
            ChaseStop::Refused(fault) => {
                push_bytes(&mut line, b"tc: refused: row ");
                push_any_number(&mut line, fault.row);
                push_bytes(&mut line, b" column ");
                push_any_number(&mut line, fault.column.number());
                push_bytes(&mut line, b"\n");
            }
            ChaseStop::ReadFault => push_bytes(&mut line, b"tc: read fault\n"),
            ChaseStop::WriteFault => push_bytes(&mut line, b"tc: write fault\n"),
            ChaseStop::Memory => push_bytes(&mut line, b"tc: out of memory\n"),
            ChaseStop::Limit => push_bytes(&mut line, b"tc: limit\n"),
        }
        line
    }
}
