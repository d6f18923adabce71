//! The line of a flywheel's frame. Read next: `line_text/src/line.rt`.
ghost use Rattle.std.specs.Prelude.{◌≡◌, ◌<◌, ◌^◌};
ghost use Rattle.report_text.specs.FrameTexts.{frame_line, FitsFrameLine};
ghost use Rattle.flywheel.specs.declared.frame.Frame.{Frame};

use flywheel::Frame;
use line_text::{Text, direction_name, push_bytes, push_count, push_flag, push_ticks};
use tc_address::{Direction, Label, text};

/// The line of a frame that was heard or invented, or of the end of invention.
pub fn frame_text(frame: &Frame) -> Text
    requires { FitsFrameLine frame.now }
    ensures { result.items ≡ frame_line frame.now }
{
    match *frame {
        Frame::Heard {
            label,
            direction,
            joined,
            tick,
        } => heard_text(&label, direction, joined, tick),
        Frame::Invented {
            label,
            direction,
            step,
            tick,
        } => invented_text(&label, direction, step, tick),
        Frame::Gone { tick } => gone_text(tick),
    }
}

fn heard_text(label: &Label, direction: Direction, joined: bool, tick: u64) -> Text
    requires { tick < 2 ^ 60 }
    ensures { result.items ≡ frame_line (Frame.Heard label.now direction joined tick) }
{
    let mut line = Text::new();
    push_bytes(&mut line, b"heard ");
    push_bytes(&mut line, direction_name(direction).as_bytes());
    push_bytes(&mut line, b" ");
    push_bytes(&mut line, &text(label));
    push_bytes(&mut line, b" joined ");
    push_flag(&mut line, joined);
    push_bytes(&mut line, b" tick ");
    push_ticks(&mut line, tick);
    push_bytes(&mut line, b"\n");
    line
}

fn invented_text(label: &Label, direction: Direction, step: u32, tick: u64) -> Text
    requires { tick < 2 ^ 60 }
    ensures { result.items ≡ frame_line (Frame.Invented label.now direction step tick) }
{
    let mut line = Text::new();
    push_bytes(&mut line, b"invented ");
    push_bytes(&mut line, direction_name(direction).as_bytes());
    push_bytes(&mut line, b" ");
    push_bytes(&mut line, &text(label));
    push_bytes(&mut line, b" step ");
    push_count(&mut line, u64::from(step));
    push_bytes(&mut line, b" tick ");
    push_ticks(&mut line, tick);
    push_bytes(&mut line, b"\n");
    line
}

fn gone_text(tick: u64) -> Text
    requires { tick < 2 ^ 60 }
    ensures { result.items ≡ frame_line (Frame.Gone tick) }
{
    let mut line = Text::new();
    push_bytes(&mut line, b"gone tick ");
    push_ticks(&mut line, tick);
    push_bytes(&mut line, b"\n");
    line
}
