//! Conformance: runs the cases of a table, and compares what is written with what has to be written.
//!
//! A case is a row of `data/cases.tsv`: the words of a command, its input, and the status, note and output that are
//! known from outside (`conformance/README.md` says from where). Each is run as a whole, in pieces of six sizes, with
//! each pull and each push failing in turn, with outputs and notes that are full at each length, and with inputs
//! that end early. `data/wrong.tsv` has cases with a wrong expectation, each of which has to be found wrong.
//!
//! Read `case`, `sweeps` and then `cell`. The program prints a line for each case, and a last line of counts for
//! each table. Then it ends as `tc` does with words that name no command: with 2. That it is safe and ends is proved,
//! and two steps of it are: a run differs unless its status, note and output are those that are wanted
//! (`specs/Same.antt`), and the digits of a cell are read exactly (`specs/Digit.antt`).
#![tactic(auto)]

mod case;
mod cell;
mod sweeps;
mod trial;

use crate::case::Case;
use crate::sweeps::{Wrong, judge};
use crate::trial::{Runner, Trial, words_of};
use std::alloc::{AllocError, Global};
use std::process::ExitCode;
use std::{fs, io};
use tc_top::Status;

/// The tables, in the order in which they are run.
const TABLES: [&str; 2] = ["cases.tsv", "wrong.tsv"];

/// The exit number if a table can't be read, or a line can't be printed.
const NOT_COMPARED: u8 = 1;

fn main(rt: HostRuntime) -> ExitCode {
    match compared(&rt) {
        Ok(mistyped) => tc_program::exit_code(Ok(mistyped)),
        Err(_) => ExitCode::from(NOT_COMPARED),
    }
}

/// Runs the cases of the tables, and answers on how words end that name no command.
fn compared(rt: &HostRuntime) -> io::Result<Status> {
    for table in TABLES {
        run_table(rt, table)?;
    }
    Ok(mistyped(rt.alloc())?)
}

/// How words end that name no command.
fn mistyped(alloc: Global) -> Result<Status, AllocError> {
    let words = words_of(alloc, "ltc-red")?;
    let mut runner = Runner { alloc, runs: 0 };
    Ok(runner.run(&Trial::new(&words, &[], 0))?.status)
}

/// Runs the cases of a table, and prints how many there are.
fn run_table(rt: &HostRuntime, table: &str) -> io::Result<()> {
    let mut runner = Runner {
        alloc: rt.alloc(),
        runs: 0,
    };
    let mut cases: u64 = 0;
    let mut wrong: u64 = 0;
    let text = fs::read_to_string(rt, table)?;
    for row in text.lines() {
        // Headings, and the names of the columns.
        if row.is_empty() || row.starts_with("#") {
            continue;
        }
        cases = cases.saturating_add(1);
        if !is_as_wanted(rt, &mut runner, row)? {
            wrong = wrong.saturating_add(1);
        }
    }
    println!(rt; "{table}: cases {cases} runs {} wrong {wrong}", runner.runs)
}

/// Runs the case of a row, prints its line, and says whether it is as it has to be.
fn is_as_wanted(rt: &HostRuntime, runner: &mut Runner, row: &str) -> io::Result<bool> {
    let cells = cells_of(rt.alloc(), row)?;
    let (Some(name), Some(rest)) = (cells.first(), cells.get(1..)) else {
        return Ok(false);
    };
    let Some(case) = Case::read(rt, runner, rest)? else {
        return unread(rt, name);
    };
    match judge(runner, &case)? {
        None => as_wanted(rt, name),
        Some(it) => wrong(rt, name, it),
    }
}

/// The cells of a row.
fn cells_of<'a>(alloc: Global, row: &'a str) -> Result<Vec<&'a str>, AllocError> {
    let mut cells = Vec::new(alloc);
    for cell in row.split("\t") {
        cells.push(cell)?;
    }
    Ok(cells)
}

/// Prints that a row cannot be read.
fn unread(rt: &HostRuntime, name: &str) -> io::Result<bool> {
    println!(rt; "wrong {name}: a row that cannot be read")?;
    Ok(false)
}

/// Prints what differs.
fn wrong(rt: &HostRuntime, name: &str, it: Wrong) -> io::Result<bool> {
    println!(rt; "wrong {name}: {} {}: {}", it.run, it.number, it.part)?;
    Ok(false)
}

/// Prints that nothing differs.
fn as_wanted(rt: &HostRuntime, name: &str) -> io::Result<bool> {
    println!(rt; "as wanted {name}")?;
    Ok(true)
}
