//! The line of a sum. Read next: `laws`.
ghost use Rattle.std.specs.Prelude.{◌≡◌, ◌+◌, ◌≤◌, ◌<◌, ◌^◌, ◌++◌, drop};
ghost use Rattle.arrayvec.specs.ArrayVec.{array_vec_len};
ghost use Rattle.label_command.specs.Sums.{rest_of, sum_line, whole_label};
ghost use Rattle.tc_address.specs.Numbering.{day_length};
ghost use Rattle.tc_address.specs.Spelling.{text_of};

use line_text::{Text, push_any_number, push_bytes};
use tc_address::{Count, Label, advance, day_labels, text};

/// So many frames, and the label that they are without an end of the day.
pub(crate) fn sum_line(count: Count, frames: u64) -> Text
    requires few { frames < 2 ^ 52 }
    ensures { result.items ≡ sum_line count frames }
{
    let mut line = Text::new();
    push_any_number(&mut line, frames);
    push_bytes(&mut line, b" ");
    push_whole_label(&mut line, count, frames);
    push_bytes(&mut line, b"\n");
    line
}

/// Appends frames as a label that no day ends: 29 bytes at most.
fn push_whole_label(line: &mut Text, count: Count, frames: u64)
    requires few { frames < 2 ^ 52 }
    requires room { array_vec_len line.old + 29 ≤ 128 }
    ensures items { line.new.items ≡ line.old.items ++ whole_label count frames }
    ensures len { array_vec_len line.new ≤ array_vec_len line.old + 29 }
{
    let rest = rest_of(count, frames);
    let days = frames / u64::from(day_labels(count));
    push_any_number(line, 24 * days + u64::from(rest.hours()));
    push_behind_hours(line, &rest);
}

/// Appends the text of a label behind its hours: 9 bytes.
fn push_behind_hours(line: &mut Text, label: &Label)
    requires room { array_vec_len line.old + 9 ≤ 128 }
    ensures items { line.new.items ≡ line.old.items ++ drop 2 (text_of label.now) }
    ensures len { array_vec_len line.new ≡ array_vec_len line.old + 9 }
{
    let text = text(label);
    push_bytes(line, &text[2..]);
}

/// The label of what is left of frames behind whole days.
fn rest_of(count: Count, frames: u64) -> Label
    ensures { result ≡ rest_of count frames }
{
    let rest = frames % u64::from(day_labels(count));
    match Label::new(count, 0, 0, 0, 0) {
        Ok(midnight) => advance(&midnight, rest as i64),
        Err(_) => unreachable!(),
    }
}
