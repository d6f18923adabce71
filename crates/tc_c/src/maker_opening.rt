//! The first maker of cells of a handle. Read next: `sound_exports`.
ghost use Rattle.std.specs.Borrow.{sem};
ghost use Rattle.biphase.specs.Shape.{IsShape};
ghost use Rattle.tc_c.specs.Opening.{HasMaker, HasMakerRoom};

use crate::maker_handle::TcMaker;
use crate::maker_kept::KeptMaker;
use biphase::{MIN_SHAPED, Shaper};

/// Makes a maker in room of the caller's, with a shape that it has until `tc_maker_start_` gives another.
#[unsafe(no_mangle)]
pub unsafe extern "C" fn tc_maker_at(room: *mut u8, handle: *mut TcMaker)
    requires* { sem 𝓛 (HasMakerRoom room handle) }
    ensures* { sem 𝓛 (HasMaker room handle) }
{
    let maker = blank();
    unsafe {
        room.cast::<KeptMaker>().write(maker);
        handle.write(TcMaker { at: room });
    }
}

/// One of the shortest cells.
fn blank() -> KeptMaker
    ensures { IsShape result }
{
    match Shaper::new(MIN_SHAPED, MIN_SHAPED, 0) {
        Ok(shaper) => KeptMaker { shaper },
        Err(_) => unreachable!(),
    }
}
