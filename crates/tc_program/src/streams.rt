//! The arguments over the standard streams, and the exit code of how they end. Read next: `tc_io/src/adapters.rt`,
//! for the streams, and `tc_top/src/top_call.rt`.
ghost use Rattle.std.specs.Prelude.{◌≡◌, Result};
ghost use Rattle.std.specs.Process.{exit_status};
ghost use Rattle.tc_command.specs.declared.status.Status.{Status};
ghost use Rattle.tc_top.specs.declared.exit.NoArguments.{NoArguments};
ghost use Rattle.tc_top.specs.Exit.{exit_number};

use std::io::Write;
use std::process::ExitCode;
use std::{env, io};
use tc_io::{ReadSource, WriteSink};
use tc_top::{NoArguments, Status, exit_number, run};

/// Runs the arguments over the standard streams, with this in place of standard output.
pub fn ended_on<W: Write + Drop>(rt: &HostRuntime, out: W) -> ExitCode
    ensures code { (ended : Result Status NoArguments) × (exit_status result ≡ exit_number ended) }
{
    exit_code(work(rt, out))
}

/// The exit code that says how the program ended.
pub fn exit_code(ended: Result<Status, NoArguments>) -> ExitCode
    ensures { exit_status result ≡ exit_number ended }
{
    ExitCode::from(exit_number(ended))
}

/// How the arguments end over the streams.
fn work<W: Write + Drop>(rt: &HostRuntime, out: W) -> Result<Status, NoArguments> {
    let words = match words(rt) {
        Ok(words) => words,
        Err(error) => return Err(NoArguments::by_kind(error.kind())),
    };
    Ok(run(
        rt.alloc(),
        &words,
        &mut ReadSource::new(rt.stdin()),
        &mut WriteSink::new(out),
        &mut WriteSink::new(rt.stderr()),
    ))
}

/// The arguments without the program's own name.
fn words(rt: &HostRuntime) -> io::Result<Vec<String>> {
    let mut words = Vec::new(rt.alloc());
    for word in env::args(rt)?.skip(1) {
        words.push(word)?;
    }
    Ok(words)
}
