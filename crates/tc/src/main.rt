//! `tc`, the timecode toolkit of a post-production machine room. Read next: `tc_program/src/streams.rt`, for the
//! arguments, the standard streams and the exit code.
#![tactic(auto)]

use std::process::ExitCode;

fn main(rt: HostRuntime) -> ExitCode {
    tc_program::ended_on(&rt, rt.stdout())
}
