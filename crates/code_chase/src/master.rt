//! What the master reads in a frame. Read next: `slip`.
ghost use Rattle.std.specs.Prelude.{◌≡◌, ◌<◌, IfSome};
ghost use Rattle.tc_address.specs.Numbering.{day_length};
ghost use Rattle.code_chase.specs.CodeTrace.{master_at, master_of};

use chase_core::Master;
use flywheel::Frame;
use tc_address::{Count, Direction, Label, number};

/// What a label says to a chase of a count.
fn master_at(count: Count, label: &Label, direction: Direction) -> Option<Master>
    ensures value { result ≡ master_at count label.now direction }
    ensures day { IfSome result (λ m. m.number < day_length count) }
{
    if label.count() == count {
        Some(Master {
            number: number(label),
            direction,
        })
    } else {
        None
    }
}

/// What a frame says to a chase of a count.
pub(crate) fn master_of(count: Count, frame: &Frame) -> Option<Master>
    ensures value { result ≡ master_of count frame.now }
    ensures day { IfSome result (λ m. m.number < day_length count) }
{
    match frame {
        Frame::Heard {
            label,
            direction,
            ..
        } => master_at(count, label, *direction),
        Frame::Invented {
            label,
            direction,
            ..
        } => master_at(count, label, *direction),
        Frame::Gone { .. } => None,
    }
}
