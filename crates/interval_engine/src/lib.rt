//! The engine of every command that reads an interval file: header, intervals, faults, limit and end.
//!
//! `work_along` takes the header and the intervals, and hands them to a `Behind`, which is what one command
//! does with them.
//!
//! What this crate promises, for all sources and sinks: a command along an interval file writes what its
//! `Printing` says of the header and the intervals, and is refused, or stops at the limit, as the file
//! is (`specs/Along.antt`, over `tc_command`). If it prints in order, it is a command as any other
//! (`specs/KeptCommand.antt`).
//!
//! Read `along`, and then one that is worked by it: `interval_commands/src/ltc_read.rt`.
#![tactic(auto)]

mod along;

pub use along::{Behind, work_along};
