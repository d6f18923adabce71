//! The line that is answered. Read next: `laws`.
ghost use Rattle.std.specs.Prelude.{◌≡◌, ◌<◌, ◌≤◌, ◌^◌, ◌++◌};
ghost use Rattle.real_time.specs.Moment.{millisecond_at};
ghost use Rattle.arrayvec.specs.ArrayVec.{array_vec_len};
ghost use Rattle.tc_address.specs.Label.{Address, IsLabel};
ghost use Rattle.tc_address.specs.Circle.{ahead};
ghost use Rattle.tc_address.specs.Numbering.{day_length, number_of};
ghost use Rattle.tc_address.specs.Spelling.{text_of};
ghost use Rattle.label_lines.specs.Answer.{answer, answer_line, label_from_midnight, length_text};
ghost use Rattle.label_lines.specs.Answer.{seconds_text, since_text, shown_text};
ghost use Rattle.label_lines.specs.Timebase.{count_of, rate_of};
ghost use Rattle.label_lines.specs.Way.{IsWayOf};

use crate::timebase::Timebase;
use crate::way::Way;
use line_text::{Text, push_any_number, push_bytes, push_signed};
use real_time::{FrameRate, frame_shown, milliseconds};
use tc_address::{Count, Label, advance, day_labels, label_at, number, shortest, text, two_digits};

/// The line that is answered to a label, with its newline.
pub fn answer_line(base: Timebase, way: &Way, label: &Label) -> Text
    requires same { label.now.count ≡ count_of base }
    requires way { IsWayOf (count_of base) way.now }
    ensures { result.items ≡ answer_line base way.now label.now }
{
    let mut line = Text::new();
    push_answer(&mut line, base, way, label);
    push_bytes(&mut line, b"\n");
    line
}

/// Appends what is answered to an empty line: 40 bytes at most.
fn push_answer(line: &mut Text, base: Timebase, way: &Way, label: &Label)
    requires same { label.now.count ≡ count_of base }
    requires way { IsWayOf (count_of base) way.now }
    requires room { array_vec_len line.old ≡ 0 }
    ensures items { line.new.items ≡ line.old.items ++ answer base way.now label.now }
    ensures len { array_vec_len line.new ≤ 40 }
{
    match way {
        Way::Number => push_any_number(line, u64::from(number(label))),
        Way::Label => push_bytes(line, &text(label)),
        Way::Plus(steps) => push_bytes(line, &text(&advance(label, i64::from(*steps)))),
        Way::Minus(steps) => push_bytes(line, &text(&advance(label, -i64::from(*steps)))),
        Way::Since(other) => push_since(line, other, label),
        Way::Length(other) => push_length(line, other, label),
        Way::Seconds => push_seconds(line, base.rate(), number(label)),
        Way::To(other) => push_shown(line, base.rate(), number(label), *other),
    }
}

/// Appends the way since a label: 11 bytes, a space and 20 at most.
fn push_since(line: &mut Text, from: &Label, to: &Label)
    requires same { from.now.count ≡ to.now.count }
    requires room { array_vec_len line.old ≡ 0 }
    ensures items { line.new.items ≡ line.old.items ++ since_text from.now to.now }
    ensures len { array_vec_len line.new ≤ 40 }
{
    let day = day_labels(to.count());
    let (a, b) = (number(from), number(to));
    push_signed(line, shortest(day, a, b));
    push_bytes(line, b" ");
    push_any_number(line, u64::from((b + (day - a)) % day));
}

/// Appends the length from a label to another, around the day: 11 bytes, a space and 20 at most.
fn push_length(line: &mut Text, from: &Label, to: &Label)
    requires same { from.now.count ≡ to.now.count }
    requires room { array_vec_len line.old ≡ 0 }
    ensures items { line.new.items ≡ line.old.items ++ length_text to.now.count
        (ahead (day_length to.now.count) (number_of from.now) (number_of to.now)) }
    ensures len { array_vec_len line.new ≤ 40 }
{
    let day = day_labels(to.count());
    let (a, b) = (number(from), number(to));
    let frames = u64::from((b + (day - a)) % day);
    push_bytes(line, &text(&label_from_midnight(to.count(), frames)));
    push_bytes(line, b" ");
    push_any_number(line, frames);
}

/// Appends the seconds at which a frame begins.
fn push_seconds(line: &mut Text, rate: FrameRate, frame: u32)
    requires day { frame < 2_592_000 }
    requires room { array_vec_len line.old ≡ 0 }
    ensures items { line.new.items ≡ line.old.items ++ seconds_text (millisecond_at rate frame) }
    ensures len { array_vec_len line.new ≤ 40 }
{
    let milliseconds = milliseconds(rate, u64::from(frame));
    push_any_number(line, milliseconds / 1000);
    push_bytes(line, b".");
    line.push(b'0' + (milliseconds % 1000 / 100) as u8);
    push_bytes(line, &two_digits((milliseconds % 100) as u32));
}

/// Appends what is shown of another count when a frame begins.
fn push_shown(line: &mut Text, rate: FrameRate, frame: u32, other: Timebase)
    requires day { frame < 2_592_000 }
    requires room { array_vec_len line.old ≡ 0 }
    ensures items { line.new.items ≡ line.old.items ++ shown_text rate frame other }
    ensures len { array_vec_len line.new ≤ 40 }
{
    let shown = frame_shown(rate, u64::from(frame), other.rate());
    push_bytes(
        line,
        &text(&label_from_midnight(other.count(), shown.frame)),
    );
    push_bytes(line, b" ");
    push_any_number(line, shown.thousandths);
}

/// The label `frames` frames after midnight, around the day.
fn label_from_midnight(count: Count, frames: u64) -> Label
    requires few { frames < 2 ^ 62 }
    ensures { result ≡ label_from_midnight count frames }
{
    match Label::new(count, 0, 0, 0, 0) {
        Ok(midnight) => advance(&midnight, frames as i64),
        Err(_) => unreachable!(),
    }
}
