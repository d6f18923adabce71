//! The lines of a report on fields. Read next: `line_text/src/line.rt`.
ghost use Rattle.std.specs.Prelude.{◌≡◌, ◌<◌, ◌≤◌, ◌+◌, ◌^◌, ◌++◌};
ghost use Rattle.arrayvec.specs.ArrayVec.{array_vec_len};
ghost use Rattle.line_file.specs.Texts.{answer_text, field_line, field_end_line, line_reason, reason, run_reason};
ghost use Rattle.line_file.specs.Texts.{word_text};

use line_text::{
    Text, push_any_number, push_bytes, push_count, push_flag, push_flags, push_hexadecimal,
};
use tc_address::text;
use vitc_line::{LineFault, VitcWord};
use vitc_reader::{FieldAnswer, ReadFault, RunFault};

/// The line of a field, which is counted from 0.
pub fn field_text(field: u64, answer: &FieldAnswer) -> Text
    requires { field < 2 ^ 40 }
    ensures { result.items ≡ field_line field answer.now }
{
    let mut line = Text::new();
    push_bytes(&mut line, b"field ");
    push_count(&mut line, field);
    push_answer(&mut line, answer);
    push_bytes(&mut line, b"\n");
    line
}

/// Appends the answer of a field.
fn push_answer(line: &mut Text, answer: &FieldAnswer)
    requires { array_vec_len line.old + 103 ≤ 128 }
    ensures items { line.new.items ≡ line.old.items ++ answer_text answer.now }
    ensures len { array_vec_len line.new ≤ array_vec_len line.old + 103 }
{
    match *answer {
        FieldAnswer::Agreed(word) => {
            push_bytes(line, b" word ");
            push_word(line, &word);
        }
        FieldAnswer::Conflict(word, other) => {
            push_bytes(line, b" conflict ");
            push_word(line, &word);
            push_bytes(line, b" and ");
            push_word(line, &other);
        }
        FieldAnswer::NoLine => push_bytes(line, b" nothing no-line"),
        FieldAnswer::Nothing(fault) => {
            push_bytes(line, b" nothing ");
            push_reason(line, fault);
        }
    }
}

/// Appends a word: its label, its user bits, its flags and its field mark.
fn push_word(line: &mut Text, word: &VitcWord)
    requires { array_vec_len line.old + 44 ≤ 128 }
    ensures items { line.new.items ≡ line.old.items ++ word_text word.now }
    ensures len { array_vec_len line.new ≡ array_vec_len line.old + 44 }
{
    push_bytes(line, &text(&word.fields.label()));
    push_bytes(line, b" user ");
    push_hexadecimal(line, word.fields.user().groups());
    push_bytes(line, b" flags ");
    push_flags(line, word.fields.flags());
    push_bytes(line, b" mark ");
    push_flag(line, word.field_mark);
}

/// Appends why no line says a word.
fn push_reason(line: &mut Text, fault: ReadFault)
    requires { array_vec_len line.old + 40 ≤ 128 }
    ensures items { line.new.items ≡ line.old.items ++ reason fault }
    ensures len { array_vec_len line.new ≤ array_vec_len line.old + 40 }
{
    match fault {
        ReadFault::Runs(fault) => push_run_reason(line, fault),
        ReadFault::Line(fault) => push_line_reason(line, fault),
    }
}

fn push_run_reason(line: &mut Text, fault: RunFault)
    requires { array_vec_len line.old + 40 ≤ 128 }
    ensures items { line.new.items ≡ line.old.items ++ run_reason fault }
    ensures len { array_vec_len line.new ≤ array_vec_len line.old + 40 }
{
    match fault {
        RunFault::Run(run) => {
            push_bytes(line, b"run ");
            push_any_number(line, run as u64);
        }
        RunFault::TooLong(run) => {
            push_bytes(line, b"too-long ");
            push_any_number(line, run as u64);
        }
    }
}

fn push_line_reason(line: &mut Text, fault: LineFault)
    requires { array_vec_len line.old + 40 ≤ 128 }
    ensures items { line.new.items ≡ line.old.items ++ line_reason fault }
    ensures len { array_vec_len line.new ≤ array_vec_len line.old + 40 }
{
    match fault {
        LineFault::SyncPair(pair) => {
            push_bytes(line, b"sync-pair ");
            push_any_number(line, u64::from(pair));
        }
        LineFault::Check(residue) => {
            push_bytes(line, b"check ");
            push_any_number(line, u64::from(residue));
        }
        LineFault::Field(fault) => push_bytes(line, fault.name().as_bytes()),
    }
}

/// The last line of a report: how many fields there are, and how many are agreed, in conflict, and
/// without a word.
pub fn field_end_text(fields: u64, agreed: u64, conflict: u64, nothing: u64) -> Text
    requires fields { fields < 2 ^ 40 }
    requires agreed { agreed < 2 ^ 40 }
    requires conflict { conflict < 2 ^ 40 }
    requires nothing { nothing < 2 ^ 40 }
    ensures { result.items ≡ field_end_line fields agreed conflict nothing }
{
    let mut line = Text::new();
    push_bytes(&mut line, b"end fields ");
    push_count(&mut line, fields);
    push_bytes(&mut line, b" agreed ");
    push_count(&mut line, agreed);
    push_bytes(&mut line, b" conflict ");
    push_count(&mut line, conflict);
    push_bytes(&mut line, b" nothing ");
    push_count(&mut line, nothing);
    push_bytes(&mut line, b"\n");
    line
}
