//! The engine of `labels COUNT sum`: a line for all lines of a text. Read next: `sum_line`, and before it `labels`.
ghost use Rattle.std.specs.Prelude.{◌≡◌, []};
ghost use Rattle.label_command.specs.KeptSums.{IsAdding, Stands};

use crate::sum_line::sum_line;
use label_lines::Timebase;
use label_text::laws::bytes_are_read_in_order;
use label_text::{LabelReader, LineRead};
use tc_address::laws::{a_text_is_read_as_its_label, number_and_label_are_inverse};
use tc_address::number;
use tc_command::{Command, Engine, Halt, InputFault, Output, Stop, Way};

/// `labels COUNT sum`: a line with the sum of all lines of a text.
#[derive(Clone, Copy)]
pub struct Sum {
    pub base: Timebase,
}

impl Command for Sum {
    ghost use Rattle.label_command.specs.Sums.{told_sum};

    ghost told = { λ command. told_sum command.base };

    fn work<W: Way>(&self, way: &mut W) -> Result<(), Stop> {
        way.read(&[], &mut LabelSum::new(self.base))
    }

    fn keeps_its_promise(&self) {
        a_text_is_read_as_its_label();
        number_and_label_are_inverse();
    }

    fn is_lawful() {
        bytes_are_read_in_order();
        a_text_is_read_as_its_label();
        number_and_label_are_inverse();
    }
}

/// A reader of a text, and how many frames its labels are together so far.
#[derive(Drop)]
struct LabelSum {
    reader: LabelReader,
    base: Timebase,
    sum: u64,
}

impl LabelSum {
    /// Before the first byte.
    fn new(base: Timebase) -> LabelSum
        ensures adding { IsAdding result }
        ensures stands { Stands result [] [] }
        ensures base { result.base ≡ base }
    {
        LabelSum {
            reader: LabelReader::new(base),
            base,
            sum: 0,
        }
    }
}

impl Engine for LabelSum {
    ghost use Rattle.label_command.specs.KeptLabels.{bytes_left};
    ghost use Rattle.label_command.specs.KeptSums.{IsAdding, Stands, stands_well};
    ghost use Rattle.label_command.specs.Sums.{along_sum};

    type Choice = Timebase;

    ghost meaning = { λ base. along_sum base };

    ghost choice = { λ s. s.base };

    ghost is_going = { λ s. IsAdding s };

    ghost stands = { λ s bytes written. Stands s bytes written };

    ghost budget = { λ s. bytes_left s.reader };

    ghost is_short = { λ s bytes. ⊥ };

    ghost stands_well = { λ s bytes written stands. stands_well s bytes written stands };

    fn take<O: Output>(&mut self, bytes: &[u8], _out: &mut O) -> Result<usize, Halt> {
        bytes_are_read_in_order();
        match self.reader.take(bytes[0]) {
            LineRead::Nothing => Ok(1),
            LineRead::Label(label) => {
                self.sum += u64::from(number(&label));
                Ok(1)
            }
            LineRead::Fault(fault) => Err(Halt::Refused(InputFault::Labels(fault))),
            LineRead::Limit => Err(Halt::Limit),
        }
    }

    fn cut_off(&self, _bytes: &[u8]) -> Option<InputFault> {
        None
    }

    fn finish<O: Output>(&mut self, out: &mut O) -> Result<(), InputFault> {
        let count = self.base.count();
        match self.reader.finish() {
            LineRead::Label(label) => {
                out.write(&sum_line(count, self.sum + u64::from(number(&label))));
                Ok(())
            }
            LineRead::Fault(fault) => Err(InputFault::Labels(fault)),
            LineRead::Nothing => {
                out.write(&sum_line(count, self.sum));
                Ok(())
            }
            LineRead::Limit => {
                out.write(&sum_line(count, self.sum));
                Ok(())
            }
        }
    }
}
