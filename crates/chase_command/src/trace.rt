//! The trace of a chase. Read next: `chase_core/src/closed_loop.rt`, and then `tc_command/src/making.rt`.
ghost use Rattle.std.specs.Prelude.{◌≡◌, ◌+◌, ◌≤◌, ◌++◌, length};
ghost use Rattle.arrayvec.specs.ArrayVec.{array_vec_len};
ghost use Rattle.chase_script.specs.Answer.{AreRowsFor};
ghost use Rattle.chase_script.specs.Kept.{text_left};
ghost use Rattle.chase_script.specs.Lock.{KeepsItsLock};
ghost use Rattle.chase_command.specs.Chase.{chase_text};

use chase_script::{Script, TraceLines};
use line_text::Text;
use tc_address::Label;
use tc_command::{Maker, PIECE, Piece};

/// The room that a line takes at most.
const LINE_ROOM: usize = 128;

/// A trace of which some lines are still to be written.
#[derive(Drop)]
pub(crate) struct Trace {
    lines: TraceLines,
}

impl Trace {
    /// The trace of a script whose chase begins at a label.
    pub(crate) fn new(label: &Label, rows: Script) -> Trace
        requires { AreRowsFor label.now.count rows.items }
        ensures text { text_left result.lines ≡ chase_text label.now rows.items }
        ensures lock { KeepsItsLock label.now rows.items }
    {
        Trace {
            lines: TraceLines::new(label, rows),
        }
    }
}

impl Maker for Trace {
    ghost use Rattle.chase_script.specs.Kept.{text_left, lines_left};

    ghost rest = { λ s. text_left s.lines };

    ghost pieces = { λ s. lines_left s.lines };

    fn give(&mut self, room: &mut Piece) -> bool {
        let Some(line) = self.lines.next_line() else {
            return false;
        };
        push_line(room, &line);
        'lines: while room.len() <= PIECE - LINE_ROOM {
            let Some(line) = self.lines.next_line() else {
                return true;
            };
            push_line(room, &line);
        }
        true
    }
}

/// A line for which there is room.
fn push_line(room: &mut Piece, line: &Text)
    requires { array_vec_len room.old + LINE_ROOM ≤ PIECE }
    ensures items { room.new.items ≡ room.old.items ++ line.now.items }
    ensures len { array_vec_len room.new ≤ array_vec_len room.old + LINE_ROOM }
{
    match room.try_extend_from_slice(line) {
        Ok(()) => (),
        Err(_) => unreachable!(),
    }
}
