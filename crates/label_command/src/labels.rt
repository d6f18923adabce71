//! The engine of `labels`: a line for each line of a text. Read next: `label_text/src/reader.rt`, then
//! `label_lines/src/answer.rt`, and then `tc_command/src/output.rt`.
ghost use Rattle.std.specs.Prelude.{◌≡◌, []};
ghost use Rattle.label_lines.specs.Answer.{answer_line};
ghost use Rattle.label_lines.specs.Timebase.{count_of};
ghost use Rattle.label_command.specs.KeptLabels.{IsGoing, Stands};

use label_lines::answer_line;
use label_text::laws::bytes_are_read_in_order;
use label_text::{LabelReader, LineRead};
use line_text::Text;
use tc_address::Label;
use tc_address::laws::{a_text_is_read_as_its_label, number_and_label_are_inverse};
use tc_command::{Command, Engine, Halt, InputFault, Output, Stop, Way};
use tc_job::LabelRun;

/// `labels`: a line for each line of a text.
#[derive(Clone, Copy)]
pub struct Labels {
    pub run: LabelRun,
}

impl Command for Labels {
    ghost use Rattle.label_command.specs.Labels.{told_labels};

    ghost told = { λ command. told_labels command.run };

    fn work<W: Way>(&self, way: &mut W) -> Result<(), Stop> {
        way.read(&[], &mut LabelAnswers::new(&self.run))
    }

    fn keeps_its_promise(&self) {
        a_text_is_read_as_its_label();
        number_and_label_are_inverse();
    }

    fn is_lawful() {
        bytes_are_read_in_order();
        a_text_is_read_as_its_label();
        number_and_label_are_inverse();
    }
}

/// A reader of a text, and what is answered to its labels.
#[derive(Drop)]
struct LabelAnswers {
    reader: LabelReader,
    run: LabelRun,
}

impl LabelAnswers {
    /// Before the first byte.
    fn new(run: &LabelRun) -> LabelAnswers
        ensures going { IsGoing result }
        ensures stands { Stands result [] [] }
        ensures run { result.run ≡ run.now }
    {
        let _way = run.way();
        LabelAnswers {
            reader: LabelReader::new(run.base()),
            run: *run,
        }
    }

    /// The line that is answered to a label.
    fn answer(&self, label: &Label) -> Text
        requires { label.now.count ≡ count_of self.now.run.base }
        ensures { result.items ≡ answer_line self.now.run.base self.now.run.way label.now }
    {
        answer_line(self.run.base(), &self.run.way(), label)
    }
}

impl Engine for LabelAnswers {
    ghost use Rattle.label_command.specs.KeptLabels.{IsGoing, Stands, bytes_left, stands_well};
    ghost use Rattle.label_command.specs.Labels.{along_labels};

    type Choice = LabelRun;

    ghost meaning = { λ run. along_labels run };

    ghost choice = { λ s. s.run };

    ghost is_going = { λ s. IsGoing s };

    ghost stands = { λ s bytes written. Stands s bytes written };

    ghost budget = { λ s. bytes_left s.reader };

    ghost is_short = { λ s bytes. ⊥ };

    ghost stands_well = { λ s bytes written stands. stands_well s bytes written stands };

    fn take<O: Output>(&mut self, bytes: &[u8], out: &mut O) -> Result<usize, Halt> {
        bytes_are_read_in_order();
        match self.reader.take(bytes[0]) {
            LineRead::Nothing => Ok(1),
            LineRead::Label(label) => {
                out.gather(&self.answer(&label));
                Ok(1)
            }
            LineRead::Fault(fault) => Err(Halt::Refused(InputFault::Labels(fault))),
            LineRead::Limit => Err(Halt::Limit),
        }
    }

    fn cut_off(&self, _bytes: &[u8]) -> Option<InputFault> {
        None
    }

    fn finish<O: Output>(&mut self, out: &mut O) -> Result<(), InputFault> {
        match self.reader.finish() {
            LineRead::Label(label) => {
                out.write(&self.answer(&label));
                Ok(())
            }
            LineRead::Fault(fault) => Err(InputFault::Labels(fault)),
            LineRead::Nothing => Ok(()),
            LineRead::Limit => Ok(()),
        }
    }
}
