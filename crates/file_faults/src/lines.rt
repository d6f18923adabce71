//! The faults of a line file. Read next: `line_names`.
ghost use Rattle.std.specs.Prelude.{◌≡◌};

use crate::line_names as names;
use std::error::Error;
use std::fmt;

/// The first fault of a line file, with the byte place, from 0, at which it is.
#[derive(Clone, Copy, Debug)]
pub enum LineFileFault {
    /// One of the first four bytes is not that of the magic, `VITL`.
    Magic(u64),
    /// The version is not 1.
    Version(u64),
    /// The system is neither 25 nor 30.
    System(u64),
    /// A reserved byte is not 0.
    Reserved(u64),
    /// A line lasts less than 460 or more than 65,535 ticks. The place is its first byte.
    LineLength(u64),
    /// A field has more than 20 lines. The place is that of the number.
    LineCount(u64),
    /// A line has an even number of runs, or more than 89. The place is that of the number.
    RunCount(u64),
    /// A run has 0 ticks. The place is its first byte.
    Run(u64),
    /// The input ends inside the header or inside a field. The place is the number of its bytes.
    Truncated(u64),
}

impl fmt::Display for LineFileFault {
    ghost use Rattle.std.specs.Prelude.{Some};
    ghost use Rattle.file_faults.specs.Lines.{name_of};

    ghost output = { λ fault. Some (name_of fault) };

    fn fmt<W: fmt::Write>(&self, f: &mut fmt::Formatter<W>) -> fmt::Result {
        f.write_str(self.name())
    }
}

impl Error for LineFileFault {}

impl LineFileFault {
    ghost use Rattle.file_faults.specs.Lines.{name_of, place_of};

    /// The name under which notes print the fault.
    pub fn name(self) -> &'static str
        ensures { result.now ≡ name_of self }
    {
        match self {
            LineFileFault::Magic(_) => names::MAGIC_NAME,
            LineFileFault::Version(_) => names::VERSION_NAME,
            LineFileFault::System(_) => names::SYSTEM_NAME,
            LineFileFault::Reserved(_) => names::RESERVED_NAME,
            LineFileFault::LineLength(_) => names::LINE_LENGTH_NAME,
            LineFileFault::LineCount(_) => names::LINE_COUNT_NAME,
            LineFileFault::RunCount(_) => names::RUN_COUNT_NAME,
            LineFileFault::Run(_) => names::RUN_NAME,
            LineFileFault::Truncated(_) => names::TRUNCATED_NAME,
        }
    }

    /// The byte place of the fault.
    pub fn place(self) -> u64
        ensures { result ≡ place_of self }
    {
        match self {
            LineFileFault::Magic(place)
            | LineFileFault::Version(place)
            | LineFileFault::System(place)
            | LineFileFault::Reserved(place)
            | LineFileFault::LineLength(place)
            | LineFileFault::LineCount(place)
            | LineFileFault::RunCount(place)
            | LineFileFault::Run(place)
            | LineFileFault::Truncated(place) => place,
        }
    }
}
