//! The lines of a report. Read next: `line_text/src/line.rt`.
ghost use Rattle.std.specs.Prelude.{◌≡◌, ◌+◌, ◌≤◌, ◌++◌, codes};
ghost use Rattle.arrayvec.specs.ArrayVec.{array_vec_len};
ghost use Rattle.line_text.specs.Line.{direction_name};
ghost use Rattle.mtc_reader.specs.Texts.{fault_name, at_byte, event_line, end_line};

use crate::event::MtcEvent;
use line_text::{Text, direction_name, push_any_number, push_bytes};
use tc_address::{Direction, LabelFault, text};

/// The name of a fault in a line.
fn fault_name(fault: LabelFault) -> &'static str
    ensures { result.now ≡ fault_name fault }
{
    match fault {
        LabelFault::Hours => "hours",
        LabelFault::Minutes => "minutes",
        LabelFault::Seconds => "seconds",
        LabelFault::Frames => "frames",
        LabelFault::Dropped => "dropped",
    }
}

/// Begins the line of a label of quarter frames.
fn push_quarter(line: &mut Text, direction: Direction)
    requires { array_vec_len line.old + 17 ≤ 128 }
    ensures items { line.new.items ≡ line.old.items ++ (codes "quarter " ++ direction_name direction ++ codes " ") }
    ensures len { array_vec_len line.new ≤ array_vec_len line.old + 17 }
{
    match direction {
        Direction::Forward => push_bytes(line, b"quarter forward "),
        Direction::Backward => push_bytes(line, b"quarter backward "),
    }
}

/// Ends a line with the place of a byte.
fn push_place(line: &mut Text, place: u64)
    requires { array_vec_len line.old + 27 ≤ 128 }
    ensures { line.new.items ≡ line.old.items ++ at_byte place }
{
    push_bytes(line, b" byte ");
    push_any_number(line, place);
    push_bytes(line, b"\n");
}

/// Appends the line of an event: 55 bytes at most.
pub fn push_mtc_text(line: &mut Text, event: &MtcEvent)
    requires { array_vec_len line.old + 55 ≤ 128 }
    ensures { line.new.items ≡ line.old.items ++ event_line event.now }
{
    match *event {
        MtcEvent::Full { label, place } => {
            push_bytes(line, b"full ");
            push_bytes(line, &text(&label));
            push_place(line, place);
        }
        MtcEvent::Quarter {
            direction,
            label,
            place,
        } => {
            push_quarter(line, direction);
            push_bytes(line, &text(&label));
            push_place(line, place);
        }
        MtcEvent::RefusedFull { fault, place } => {
            push_bytes(line, b"refused full ");
            push_bytes(line, fault_name(fault).as_bytes());
            push_place(line, place);
        }
        MtcEvent::RefusedQuarter {
            direction,
            fault,
            place,
        } => {
            push_bytes(line, b"refused ");
            push_bytes(line, direction_name(direction).as_bytes());
            push_bytes(line, b" ");
            push_bytes(line, fault_name(fault).as_bytes());
            push_place(line, place);
        }
    }
}

/// The last line of a report: how many bytes were read, and how many labels of full messages, labels of
/// quarter frames and refused addresses were found.
pub fn mtc_end_text(bytes: u64, full: u64, quarter: u64, refused: u64) -> Text
    ensures { result.items ≡ end_line bytes full quarter refused }
{
    let mut line = Text::new();
    push_bytes(&mut line, b"end bytes ");
    push_any_number(&mut line, bytes);
    push_bytes(&mut line, b" full ");
    push_any_number(&mut line, full);
    push_bytes(&mut line, b" quarter ");
    push_any_number(&mut line, quarter);
    push_bytes(&mut line, b" refused ");
    push_any_number(&mut line, refused);
    push_bytes(&mut line, b"\n");
    line
}
