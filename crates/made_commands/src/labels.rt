//! The commands that turn labels into numbers and back: each writes one line. Read next: `tc_command/src/making.rt`.
ghost use Rattle.std.specs.Prelude.{◌≡◌};
ghost use Rattle.tc_address.specs.Numbering.{number_of};
ghost use Rattle.made_commands.specs.Labels.{number_line, label_line};

use line_text::{Text, push_any_number, push_bytes};
use tc_address::laws::{a_text_is_read_as_its_label, number_and_label_are_inverse};
use tc_address::{Label, number, text};
use tc_command::{Command, Stop, Way};

/// `label`: the label with a number.
#[derive(Clone, Copy)]
pub struct LabelOf {
    pub label: Label,
}

impl Command for LabelOf {
    ghost use Rattle.made_commands.specs.Labels.{told_label};

    ghost told = { λ command. told_label command.label };

    fn work<W: Way>(&self, way: &mut W) -> Result<(), Stop> {
        way.write(&label_line(&self.label))
    }

    fn keeps_its_promise(&self) {
        a_text_is_read_as_its_label();
        let _count = self.label.count();
    }

    fn is_lawful() {
        a_text_is_read_as_its_label();
    }
}

/// `number`: how many labels of its count come before a label in the day.
#[derive(Clone, Copy)]
pub struct Number {
    pub label: Label,
}

impl Command for Number {
    ghost use Rattle.made_commands.specs.Labels.{told_number};

    ghost told = { λ command. told_number command.label };

    fn work<W: Way>(&self, way: &mut W) -> Result<(), Stop> {
        way.write(&number_line(&self.label))
    }

    fn keeps_its_promise(&self) {
        number_and_label_are_inverse();
        let _count = self.label.count();
    }

    fn is_lawful() {
        number_and_label_are_inverse();
    }
}

/// The line of `number`.
fn number_line(label: &Label) -> Text
    ensures { result.items ≡ number_line (number_of label.now) }
{
    let mut line = Text::new();
    push_any_number(&mut line, u64::from(number(label)));
    push_bytes(&mut line, b"\n");
    line
}

/// The line of `label`: the text of the label.
fn label_line(label: &Label) -> Text
    ensures { result.items ≡ label_line label.now }
{
    let mut line = Text::new();
    push_bytes(&mut line, &text(label));
    push_bytes(&mut line, b"\n");
    line
}
