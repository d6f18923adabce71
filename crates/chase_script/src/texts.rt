//! The lines of a trace. Read next: `line_text/src/line.rt`.
ghost use Rattle.std.specs.Prelude.{◌≡◌, ◌+◌, ◌<◌, ◌≤◌, ◌++◌, codes};
ghost use Rattle.arrayvec.specs.ArrayVec.{array_vec_len};
ghost use Rattle.transport_model.specs.Move.{day_of};
ghost use Rattle.chase_script.specs.TraceText.{state_name, loss_name, position_text, step_line, step_end_line};

use chase_core::{Loss, State, StepReport};
use line_text::{Text, push_any_number, push_bytes, push_signed};
use tc_address::{Count, label_at, text};

/// The line of a step, counted from 1, after which the transport is at this position.
pub fn step_text(step: u64, report: &StepReport, count: Count, position: u32) -> Text
    requires { position < day_of count }
    ensures { result.items ≡ step_line count step (record { report = report.now; position = position }) }
{
    let mut line = Text::new();
    push_bytes(&mut line, b"step ");
    push_any_number(&mut line, step);
    push_state(&mut line, report.state);
    push_signed(&mut line, report.error);
    push_bytes(&mut line, b" order ");
    push_signed(&mut line, report.order);
    push_loss(&mut line, report.loss);
    push_position(&mut line, count, position);
    push_bytes(&mut line, b"\n");
    line
}

/// The last line: how many steps there were, and how many of them lost the lock.
pub fn step_end_text(steps: u64, losses: u64) -> Text
    ensures { result.items ≡ step_end_line steps losses }
{
    let mut line = Text::new();
    push_bytes(&mut line, b"end steps ");
    push_any_number(&mut line, steps);
    push_bytes(&mut line, b" losses ");
    push_any_number(&mut line, losses);
    push_bytes(&mut line, b"\n");
    line
}

/// Appends the name of a state, between the words on both sides of it. Bytes of a known length are
/// appended without a call.
fn push_state(line: &mut Text, state: State)
    requires { array_vec_len line.old + 16 ≤ 128 }
    ensures items { line.new.items ≡ line.old.items ++ (codes " " ++ state_name state ++ codes " error ") }
    ensures len { array_vec_len line.new ≤ array_vec_len line.old + 16 }
{
    match state {
        State::Waiting => push_bytes(line, b" waiting error "),
        State::Locating => push_bytes(line, b" locating error "),
        State::Pulling => push_bytes(line, b" pulling error "),
        State::Locked => push_bytes(line, b" locked error "),
    }
}

/// Appends how the lock was lost, if it was, in the same way.
fn push_loss(line: &mut Text, loss: Option<Loss>)
    requires { array_vec_len line.old + 17 ≤ 128 }
    ensures items { line.new.items ≡ line.old.items ++ (codes " loss " ++ loss_name loss ++ codes " at ") }
    ensures len { array_vec_len line.new ≤ array_vec_len line.old + 17 }
{
    match loss {
        None => push_bytes(line, b" loss none at "),
        Some(Loss::NoCode) => push_bytes(line, b" loss no-code at "),
        Some(Loss::Window(_)) => push_bytes(line, b" loss window at "),
    }
}

/// Appends a position: the label that it lies in, and the subframes behind the label's beginning.
fn push_position(line: &mut Text, count: Count, position: u32)
    requires room { array_vec_len line.old + 14 ≤ 128 }
    requires day { position < day_of count }
    ensures items { line.new.items ≡ line.old.items ++ position_text count position }
    ensures len { array_vec_len line.new ≡ array_vec_len line.old + 14 }
{
    let rest = (position % 80) as u8;
    match label_at(count, position / 80) {
        Some(label) => push_bytes(line, &text(&label)),
        None => unreachable!(),
    }
    push_bytes(line, &[b'+', b'0' + rest / 10, b'0' + rest % 10]);
}
