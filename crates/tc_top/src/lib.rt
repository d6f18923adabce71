//! The program as one call: words and bytes in, bytes and a status out.
//!
//! `run` reads the words of the command line and works the job that they name along a source of
//! bytes. The output goes to one sink, and one line for each status but Done to another. `stream`
//! works a job that was read already, in fixed memory.
//!
//! What this crate promises, for all words, sources and sinks:
//! - What was pulled and what was pushed are those of the status (`specs/Answer.antt`, `IsRunAnswer`; clause
//!   `answer`). All that is claimed of a job's command is its `Told` (`specs/Commands.antt`, a line a job), and it
//!   holds (clause `told` of `stream`). If it is done it keeps its promise, and what a further command makes of
//!   what it wrote is as promised (`specs/Promises.antt`): a report tells the tape, invented frames are marked,
//!   what is made or recorded anew is read back, each loss has its cause.
//! - A read fault and a write fault come only if a count of faults rose, and the words and the whole input
//!   leave one status if none rose, lack of memory aside (clauses `source`, `out`, `status`).
//! - Whatever the status, what was written is a front of the output of the whole input (clause `answer`;
//!   `IsAnswer`, and of a chase `IsChaseAnswer`). Each input has an output (clause `told` of `stream`).
//! - The note is the one line of the status. A failing sink of notes changes no status.
//! - The exit number is that of the status, or the program's own if there are no arguments
//!   (`specs/Exit.antt`; `laws::exit_numbers_are_these` has them one by one).
//!
//! Read `top_call`, `streaming`, `reading_on` and `exit`; the commands are in `interval_commands`,
//! `frame_commands`, `made_commands`, `signal_commands`, `label_command` and `chase_command`, over `tc_command`.
#![tactic(auto)]

mod exit;
pub mod laws;
mod reading_on;
mod streaming;
mod top_call;

pub use chase_command::MAX_SCRIPT;
pub use exit::{NO_ARGUMENTS, NoArguments, exit_number};
pub use streaming::stream;
pub use tc_command::Status;
pub use top_call::run;
