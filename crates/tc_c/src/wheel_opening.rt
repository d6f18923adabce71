//! The first flywheel of a handle. Read next: `mtc_writer_exports`.
ghost use Rattle.std.specs.Prelude.{[]};
ghost use Rattle.std.specs.Borrow.{sem};
ghost use Rattle.frame_wheel.specs.Wheel.{StandsFor};
ghost use Rattle.tc_c.specs.Opening.{HasWheel, HasWheelRoom};

use crate::wheel_handle::TcWheel;
use crate::wheel_kept::KeptWheel;
use frame_wheel::FrameWheel;

/// Makes a flywheel in room of the caller's, which invents nothing until `tc_wheel_start_` lets it.
#[unsafe(no_mangle)]
pub unsafe extern "C" fn tc_wheel_at(room: *mut u8, handle: *mut TcWheel)
    requires* { sem 𝓛 (HasWheelRoom room handle) }
    ensures* { sem 𝓛 (HasWheel room handle) }
{
    let wheel = blank();
    unsafe {
        room.cast::<KeptWheel>().write(wheel);
        handle.write(TcWheel { at: room });
    }
}

/// One that heard no word, and invents no frame.
fn blank() -> KeptWheel
    ensures { StandsFor result [] [] }
{
    KeptWheel {
        wheel: FrameWheel::new(0),
    }
}
