//! The functions of lines that C calls. Read next: `laws`.
ghost use Rattle.std.specs.Prelude.{◌≡◌, ◌≤◌, ◌↔◌, Result, length, take, drop, true, false};
ghost use Rattle.tc_address.specs.declared.system.System.{System};
ghost use Rattle.vitc_line.specs.declared.word.VitcWord.{VitcWord};
ghost use Rattle.vitc_line.specs.Spelled.{line_of};
ghost use Rattle.vitc_reader.specs.declared.fault.ReadFault.{ReadFault};
ghost use Rattle.vitc_reader.specs.Field.{IsSaid};
ghost use Rattle.vitc_reader.specs.Runs.{IsLineLength};
ghost use Rattle.vitc_reader.specs.Written.{runs_in};
ghost use Rattle.tc_c.specs.CLine.{c_line, MayBeRead, MeansLineWord, NamesLines};

use crate::line::{MOST_RUNS, TcLine, c_line, is_line_length, may_be_line, say, system_with_lines};
use crate::line_runs::write_runs;
use crate::word::TcWord;

/// Reads a line of so many ticks from its runs: the word that it says, or its first fault. Tells whether there are
/// such lines.
#[unsafe(no_mangle)]
pub extern "C" fn tc_line_read(system: u32, length: u32, runs: &[u16], line: &mut TcLine) -> bool
    ensures says { result ≡ true → (s : System) × (said : Result VitcWord ReadFault) × NamesLines system s
        × IsSaid s length runs.now said × (line.new ≡ c_line said) }
    ensures taken { (result ≡ true) ↔ MayBeRead system length runs.now }
    ensures refused { result ≡ false → line.new ≡ line.old }
{
    let Some(system) = system_with_lines(system) else {
        return false;
    };
    if !is_line_length(length) || !may_be_line(runs) {
        return false;
    }
    *line = c_line(say(system, length, runs));
    true
}

/// Writes the runs of the line of a word, where the numbers mean one, a line may last so long, and there is room for
/// 89. Gives how many these are, and else 0.
#[unsafe(no_mangle)]
pub extern "C" fn tc_line_runs(word: &TcWord, line_length: u32, runs: &mut [u16]) -> usize
    ensures writes { (w : VitcWord) → MeansLineWord word.now w → IsLineLength line_length → 89 ≤ length runs.old
        → (1 ≤ result) × (take result runs.new ≡ runs_in line_length (line_of w)) }
    ensures means { 1 ≤ result → (w : VitcWord) × MeansLineWord word.now w × IsLineLength line_length
        × (89 ≤ length runs.old) }
    ensures most { result ≤ 89 }
    ensures rest { drop result runs.new ≡ drop result runs.old }
{
    let Some(word) = word.line_meaning() else {
        return 0;
    };
    if !is_line_length(line_length) || runs.len() < MOST_RUNS {
        return 0;
    }
    write_runs(&word, line_length, runs)
}
