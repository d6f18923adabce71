//! The faults of an interval file. Read next: `names`.
ghost use Rattle.std.specs.Prelude.{◌≡◌};

use crate::names;
use std::error::Error;
use std::fmt;

/// The first fault of an interval file, with the byte place, from 0, at which it is.
#[derive(Clone, Copy, Debug)]
pub enum IntervalFileFault {
    /// One of the first four bytes is not that of the magic, `LTCI`.
    Magic(u64),
    /// The version is neither 1 nor 2.
    Version(u64),
    /// The system is none of 24, 25 and 30.
    System(u64),
    /// A reserved byte is not 0.
    Reserved(u64),
    /// The tick rate is 0 or above 100,000,000. The place is its first byte.
    TickRate(u64),
    /// An interval is 0 or above 16,777,215 ticks. The place is its first byte.
    Interval(u64),
    /// The input ends inside the header or inside an interval. The place is the number of its bytes.
    Truncated(u64),
}

impl fmt::Display for IntervalFileFault {
    ghost use Rattle.std.specs.Prelude.{Some};
    ghost use Rattle.interval_file.specs.Fault.{name_of};

    ghost output = { λ fault. Some (name_of fault) };

    fn fmt<W: fmt::Write>(&self, f: &mut fmt::Formatter<W>) -> fmt::Result {
        f.write_str(self.name())
    }
}

impl Error for IntervalFileFault {}

impl IntervalFileFault {
    ghost use Rattle.interval_file.specs.Fault.{name_of, place_of};

    /// The name under which notes print the fault.
    pub fn name(self) -> &'static str
        ensures { result.now ≡ name_of self }
    {
        match self {
            IntervalFileFault::Magic(_) => names::MAGIC_NAME,
            IntervalFileFault::Version(_) => names::VERSION_NAME,
            IntervalFileFault::System(_) => names::SYSTEM_NAME,
            IntervalFileFault::Reserved(_) => names::RESERVED_NAME,
            IntervalFileFault::TickRate(_) => names::TICK_RATE_NAME,
            IntervalFileFault::Interval(_) => names::INTERVAL_NAME,
            IntervalFileFault::Truncated(_) => names::TRUNCATED_NAME,
        }
    }

    /// The byte place of the fault.
    pub fn place(self) -> u64
        ensures { result ≡ place_of self }
    {
        match self {
            IntervalFileFault::Magic(place)
            | IntervalFileFault::Version(place)
            | IntervalFileFault::System(place)
            | IntervalFileFault::Reserved(place)
            | IntervalFileFault::TickRate(place)
            | IntervalFileFault::Interval(place)
            | IntervalFileFault::Truncated(place) => place,
        }
    }
}
