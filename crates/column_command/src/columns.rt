//! The engine of `labels` with columns. Read next: `lengths`, and then `tc_command/src/output.rt`.
ghost use Rattle.std.specs.Prelude.{◌≡◌, ◌<◌, ◌≤◌, ◌+◌, ◌∷◌, ◌++◌, ℕ, List, [], length, take, get_or, false};
ghost use Rattle.std.specs.List.{position_or_len};
ghost use Rattle.arrayvec.specs.ArrayVec.{array_vec_len};
ghost use Rattle.column_command.specs.AnsweredText.{answered};
ghost use Rattle.column_command.specs.KeptLine.{Keeps, Stands, passed};
ghost use Rattle.label_columns.specs.Columns.{is_newline};
ghost use Rattle.label_columns.specs.Parts.{part_of};
ghost use Rattle.label_columns.specs.declared.columns.TheConstants.{MAX_COLUMN_LINE};
ghost use Rattle.label_command.specs.TextLines.{IsLine};

use crate::lengths::put_line;
use arrayvec::ArrayVec;
use label_columns::MAX_COLUMN_LINE;
use tc_command::{Command, Engine, Halt, InputFault, Output, Stop, Way};
use tc_job::ColumnRun;

/// The most bytes of a text whose columns are answered.
pub const MAX_TEXT: u64 = 1_000_000_000_000;

/// `labels` with columns.
#[derive(Clone, Copy)]
pub struct Columns {
    pub run: ColumnRun,
}

impl Command for Columns {
    ghost use Rattle.column_command.specs.AnsweredText.{told_columns};

    ghost told = { λ command. told_columns command.run };

    fn work<W: Way>(&self, way: &mut W) -> Result<(), Stop> {
        way.read(&[], &mut ColumnAnswers::new(&self.run))
    }

    fn keeps_its_promise(&self) {}

    fn is_lawful() {}
}

/// What is kept of a text: the line that no newline has ended yet, as long as it is not too long to be answered.
#[derive(Drop)]
struct ColumnAnswers {
    run: ColumnRun,
    left: u64,
    line: ArrayVec<u8, MAX_COLUMN_LINE>,
    is_long: bool,
}

impl ColumnAnswers {
    /// Before the first byte.
    fn new(run: &ColumnRun) -> ColumnAnswers
        ensures stands { Stands result [] [] }
        ensures run { result.run ≡ run.now }
    {
        ColumnAnswers {
            run: *run,
            left: MAX_TEXT,
            line: ArrayVec::new(),
            is_long: false,
        }
    }

    /// Takes bytes of a line. Those of a line that is too long pass.
    fn go_on<O: Output>(&mut self, more: &[u8], out: &mut O)
        requires few { length more.now ≤ MAX_COLUMN_LINE }
        ensures run { self.new.run ≡ self.old.run }
        ensures left { self.new.left ≡ self.old.left }
        ensures keeps { (line : List ℕ) → Keeps self.old line → Keeps self.new (line ++ more.now) }
        ensures given { (line : List ℕ) → Keeps self.old line → (put : List ℕ) × O.given out.old out.new put
            × (passed self.old line ++ put ≡ passed self.new (line ++ more.now)) }
    {
        if self.is_long {
            out.gather(more);
            return;
        }
        let Err(_) = self.line.try_extend_from_slice(more) else {
            return;
        };
        out.gather(&self.line);
        out.gather(more);
        self.line.clear();
        self.is_long = true;
    }

    /// Ends a line, and goes on to the next.
    fn end_line<O: Output>(&mut self, out: &mut O)
        ensures run { self.new.run ≡ self.old.run }
        ensures left { self.new.left ≡ self.old.left }
        ensures keeps { (line : List ℕ) → Keeps self.old line → Keeps self.new [] }
        ensures short { self.new.is_long ≡ false }
        ensures given { (line : List ℕ) → Keeps self.old line → (put : List ℕ) × O.given out.old out.new put
            × (passed self.old line ++ put ≡ answered self.old.run (part_of line (10 ∷ []))) }
    {
        if self.is_long {
            self.is_long = false;
            out.gather(b"\n");
            return;
        }
        put_line(&self.run, &self.line, out);
        self.line.clear();
        out.gather(b"\n");
    }
}

impl Engine for ColumnAnswers {
    ghost use Rattle.column_command.specs.AnsweredText.{along_columns};
    ghost use Rattle.column_command.specs.KeptLine.{Stands, stands_well};

    type Choice = ColumnRun;

    ghost meaning = { λ run. along_columns run };

    ghost choice = { λ s. s.run };

    ghost is_going = { λ s. Unit {0} };

    ghost stands = { λ s bytes written. Stands s bytes written };

    ghost budget = { λ s. s.left };

    ghost is_short = { λ s bytes. ⊥ };

    ghost stands_well = { λ s bytes written stands. stands_well s bytes written stands };

    fn take<O: Output>(&mut self, bytes: &[u8], out: &mut O) -> Result<usize, Halt> {
        if self.left == 0 {
            return Err(Halt::Limit);
        }
        if bytes[0] == b'\n' {
            self.end_line(out);
            self.left -= 1;
            return Ok(1);
        }
        let count = line_length(bytes, self.left);
        self.go_on(&bytes[..count], out);
        self.left -= count as u64;
        Ok(count)
    }

    fn cut_off(&self, _bytes: &[u8]) -> Option<InputFault> {
        None
    }

    fn finish<O: Output>(&mut self, out: &mut O) -> Result<(), InputFault> {
        if !self.is_long {
            put_line(&self.run, &self.line, out);
        }
        Ok(())
    }
}

/// How many bytes there are up to the first newline, at most as many as a line keeps and are left.
fn line_length(bytes: &[u8], left: u64) -> usize
    requires some { 0 < length bytes.now }
    requires left { 0 < left }
    ensures least { is_newline (get_or bytes.now 0 0) ≡ false → 1 ≤ result }
    ensures most { result ≤ length bytes.now }
    ensures few { result ≤ MAX_COLUMN_LINE }
    ensures within { result ≤ left }
    ensures line { IsLine (take result bytes.now) }
{
    let most = bytes
        .len()
        .min(MAX_COLUMN_LINE)
        .min(left.min(MAX_COLUMN_LINE as u64) as usize);
    let mut at = 0;
    'bytes: while at < most && bytes[at] != b'\n' {
        at += 1;
    }
    at
}
