//! What a line of vertical interval time code says, in numbers. Read next: `line_runs`.
ghost use Rattle.std.specs.Prelude.{◌≡◌, ◌↔◌, IsTrue, Some, IfSome};
ghost use Rattle.tc_address.specs.declared.system.System.{System};
ghost use Rattle.vitc_line.specs.Places.{HasLines};
ghost use Rattle.vitc_reader.specs.Field.{IsSaid};
ghost use Rattle.vitc_reader.specs.Runs.{IsLineLength, MayBeLine};
ghost use Rattle.tc_c.specs.CLine.{c_line, c_line_word, c_no_word, line_fault_number, line_fault_place, NamesLines};

use crate::event::{fault_number, flag_bits};
use crate::label::{TcLabel, no_label};
use crate::word::TcWord;
use tc_address::System;
use vitc_line::{LineFault, VitcWord, decode};
use vitc_reader::{MAX_LINE_LENGTH, MIN_LINE_LENGTH, ReadFault, RunFault, read_runs};

/// The most runs of a line.
pub(crate) const MOST_RUNS: usize = 89;

/// The number of a run that is no whole number of cells.
const RUN: u32 = 13;

/// That of a run with which the line has too many.
const TOO_LONG: u32 = 14;

/// That of a wrong sync pair.
const SYNC_PAIR: u32 = 15;

/// That of a wrong check.
const CHECK: u32 = 16;

/// What a line says, in numbers. Those that say nothing of it are 0.
#[repr(C)]
#[derive(Clone, Copy)]
pub struct TcLine {
    /// Of a fault: the run or the sync pair, counted from 0, or the residue of the check.
    pub place: usize,
    /// 0 where the line says a word, or the number of its first fault.
    pub fault: u32,
    /// The word, with the field mark among the flags where a word of 80 bits has its balance.
    pub word: TcWord,
}

/// The system of a number, if its pictures have lines with time code.
pub(crate) fn system_with_lines(number: u32) -> Option<System>
    ensures means { IfSome result (NamesLines number) }
    ensures only { (s : System) → NamesLines number s → result ≡ Some s }
{
    match number {
        25 => Some(System::F25),
        30 => Some(System::F30),
        _ => None,
    }
}

/// Tells whether a line may last so many ticks.
pub(crate) fn is_line_length(length: u32) -> bool
    ensures { IsTrue result ↔ IsLineLength length }
{
    length >= MIN_LINE_LENGTH && length <= MAX_LINE_LENGTH
}

/// Tells whether a line may have so many runs.
pub(crate) fn may_be_line(runs: &[u16]) -> bool
    ensures { IsTrue result ↔ MayBeLine runs.now }
{
    runs.len() % 2 == 1 && runs.len() <= MOST_RUNS
}

/// What a line says, whose runs are these.
pub(crate) fn say(system: System, length: u32, runs: &[u16]) -> Result<VitcWord, ReadFault>
    requires system { HasLines system }
    requires length { IsLineLength length }
    requires runs { MayBeLine runs.now }
    ensures { IsSaid system length runs.now result }
{
    match read_runs(length, runs) {
        Ok(bits) => match decode(system, bits) {
            Ok(word) => Ok(word),
            Err(fault) => Err(ReadFault::Line(fault)),
        },
        Err(fault) => Err(ReadFault::Runs(fault)),
    }
}

/// What a line says, in numbers.
pub(crate) fn c_line(said: Result<VitcWord, ReadFault>) -> TcLine
    ensures { result ≡ c_line said }
{
    match said {
        Ok(word) => TcLine {
            place: 0,
            fault: 0,
            word: c_line_word(&word),
        },
        Err(fault) => TcLine {
            place: line_fault_place(fault),
            fault: line_fault_number(fault),
            word: no_word(),
        },
    }
}

/// The word of a line in numbers.
fn c_line_word(word: &VitcWord) -> TcWord
    ensures { result ≡ c_line_word word.now }
{
    TcWord {
        label: TcLabel::numbers_of(&word.fields.label()),
        flags: u32::from(flag_bits(word.fields.flags(), word.field_mark)),
        user: word.fields.user().groups(),
    }
}

/// The numbers that stand where there is no word.
fn no_word() -> TcWord
    ensures { result ≡ c_no_word }
{
    TcWord {
        label: no_label(),
        flags: 0,
        user: 0,
    }
}

/// The number of a fault.
fn line_fault_number(fault: ReadFault) -> u32
    ensures { result ≡ line_fault_number fault }
{
    match fault {
        ReadFault::Runs(RunFault::Run(_)) => RUN,
        ReadFault::Runs(RunFault::TooLong(_)) => TOO_LONG,
        ReadFault::Line(LineFault::SyncPair(_)) => SYNC_PAIR,
        ReadFault::Line(LineFault::Check(_)) => CHECK,
        ReadFault::Line(LineFault::Field(fault)) => u32::from(fault_number(fault)),
    }
}

/// The place of a fault.
fn line_fault_place(fault: ReadFault) -> usize
    ensures { result ≡ line_fault_place fault }
{
    match fault {
        ReadFault::Runs(RunFault::Run(run)) => run,
        ReadFault::Runs(RunFault::TooLong(run)) => run,
        ReadFault::Line(LineFault::SyncPair(pair)) => pair as usize,
        ReadFault::Line(LineFault::Check(residue)) => residue as usize,
        ReadFault::Line(LineFault::Field(_)) => 0,
    }
}
