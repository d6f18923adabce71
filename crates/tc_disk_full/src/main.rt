//! `tc` on a disk that is full, in the gate: no byte of the version can be written, and it ends with 5.
//! Read next: `tc_program/src/streams.rt`.
#![tactic(auto)]

ghost use Rattle.std.specs.Prelude.{◌≡◌};
ghost use Rattle.std.specs.Process.{exit_status};

use std::fs;
use std::process::ExitCode;

/// Each write to it fails, as on a full disk.
const FULL: &str = "/dev/full";

/// What it ends with if the disk can't be opened: no run of `tc` ends so.
fn not_opened() -> ExitCode
    ensures { exit_status result ≡ 1 }
{
    ExitCode::from(1)
}

fn main(rt: HostRuntime) -> ExitCode {
    match fs::create(&rt, FULL) {
        Ok(full) => tc_program::ended_on(&rt, full),
        Err(_) => not_opened(),
    }
}
