//! From bytes to the labels of their lines. Read next: `label_lines/src/line.rt`, which reads a line.
ghost use Rattle.std.specs.Prelude.{◌≡◌, ◌≤◌};
ghost use Rattle.tc_address.specs.Label.{Address};
ghost use Rattle.label_lines.specs.Timebase.{count_of};
ghost use Rattle.label_text.specs.declared.reader.TheConstants.{MAX_LINES};
ghost use Rattle.label_text.specs.LabelText.{IsPlace, after, at_end, line_said, said_by, start};

use crate::fault::LineFault;
use arrayvec::ArrayVec;
use label_lines::{Timebase, read_line, wrong_column};
use std::marker::Model;
use tc_address::Label;

/// The most bytes of a line, without its newline.
pub const MAX_LINE: usize = 64;

/// The most lines that are read.
pub const MAX_LINES: u64 = 1_000_000_000;

/// What a byte completes, or the end of a text.
#[derive(Clone, Copy)]
pub enum LineRead {
    /// No line, so far.
    Nothing,
    /// A line that says this label.
    Label(Label),
    /// A line that says none.
    Fault(LineFault),
    /// One line too many.
    Limit,
}

/// Reads the lines of a text, byte by byte.
#[derive(Drop)]
pub struct LabelReader {
    base: Timebase,
    number: u64,
    line: ArrayVec<u8, MAX_LINE>,
}

impl Model for LabelReader {
    ghost use Rattle.label_text.specs.LabelText.{IsPlace, Place, place_at};

    ghost Value = { Place };

    ghost view = { λ r. place_at r.base r.number r.line.items };

    ghost invariant = { λ r. IsPlace (place_at r.base r.number r.line.items) };
}

impl LabelReader {
    /// Before the first byte of a text.
    pub fn new(base: Timebase) -> LabelReader
        ensures value { result ≡ start base }
        ensures valid { IsPlace result }
    {
        LabelReader {
            base,
            number: 1,
            line: ArrayVec::new(),
        }
    }

    /// Takes a byte. A fault and the limit leave the reader as it was.
    pub fn take(&mut self, byte: u8) -> LineRead
        ensures said { result ≡ said_by self.old byte }
        ensures next { self.new ≡ after (said_by self.old byte) byte self.old }
        ensures valid { IsPlace self.new }
        ensures count { (label : Address) → result ≡ LineRead.Label label → label.count ≡ count_of self.old.base }
    {
        if self.number > MAX_LINES {
            return LineRead::Limit;
        }
        if byte == b'\n' {
            return self.end_line();
        }
        if self.line.is_full() {
            return LineRead::Fault(LineFault {
                line: self.number,
                column: wrong_column(self.base.count(), &self.line) as u64,
            });
        }
        self.line.push(byte);
        LineRead::Nothing
    }

    /// What the end of the text says of the bytes behind the last newline.
    pub fn finish(&self) -> LineRead
        ensures said { result ≡ at_end self.now }
        ensures count { (label : Address) → result ≡ LineRead.Label label → label.count ≡ count_of self.now.base }
    {
        if self.line.is_empty() {
            LineRead::Nothing
        } else {
            self.line_said()
        }
    }

    /// Goes on to the next line, if this one says a label.
    fn end_line(&mut self) -> LineRead
        requires { self.old.number ≤ MAX_LINES }
        ensures said { result ≡ line_said self.old }
        ensures next { self.new ≡ after (line_said self.old) 10 self.old }
        ensures valid { IsPlace self.new }
        ensures count { (label : Address) → result ≡ LineRead.Label label → label.count ≡ count_of self.old.base }
    {
        let said = self.line_said();
        if let LineRead::Label(_) = said {
            self.number += 1;
            self.line.clear();
        }
        said
    }

    /// What the line says, without going on to the next.
    fn line_said(&self) -> LineRead
        ensures said { result ≡ line_said self.now }
        ensures count { (label : Address) → result ≡ LineRead.Label label → label.count ≡ count_of self.now.base }
    {
        match read_line(self.base, &self.line) {
            Ok(label) => LineRead::Label(label),
            Err(column) => LineRead::Fault(LineFault {
                line: self.number,
                column: column as u64,
            }),
        }
    }
}
