//! The program as a process: the arguments become words, standard input a source, standard output and
//! standard error sinks, and how the run ended the exit code. All else is `tc_top::run`.
//!
//! What this crate promises: the exit code is that of some end of a run, or of a program without
//! arguments (`tc_top/specs/Exit.antt`, `exit_number`; clause `code`). That the run is that of the
//! arguments over these streams, no clause can say: the toolchain says nothing of them. So this crate is
//! a part of the trusted edge, and stays small. Three programs of the gate try it: `tc` itself, which ends
//! with a refused file, `tc_disk_full` with an output that takes nothing, and `tc_conformance`, which ends as
//! words do that name no command.
//!
//! Read `streams`.
#![tactic(auto)]

mod streams;

pub use streams::{ended_on, exit_code};
