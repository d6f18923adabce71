//! The first slicer of a handle. Read next: `label_exports`.
ghost use Rattle.std.specs.Prelude.{[]};
ghost use Rattle.std.specs.Borrow.{sem};
ghost use Rattle.sound_reader.specs.Slicer.{StandsFor};
ghost use Rattle.tc_c.specs.Opening.{HasSlicer, HasSlicerRoom};

use crate::slicer_handle::TcSlicer;
use crate::slicer_kept::KeptSlicer;
use pcm_front::{Pace, Start, Threshold};
use sound_reader::{SlicerSettings, SoundSlicer};

/// Makes a slicer in room of the caller's, with settings that it has until `tc_slicer_start_` gives others.
#[unsafe(no_mangle)]
pub unsafe extern "C" fn tc_slicer_at(room: *mut u8, handle: *mut TcSlicer)
    requires* { sem 𝓛 (HasSlicerRoom room handle) }
    ensures* { sem 𝓛 (HasSlicer room handle) }
{
    let slicer = blank();
    unsafe {
        room.cast::<KeptSlicer>().write(slicer);
        handle.write(TcSlicer { at: room });
    }
}

/// One that was given nothing.
fn blank() -> KeptSlicer
    ensures { StandsFor result [] [] }
{
    KeptSlicer {
        slicer: SoundSlicer::new(SlicerSettings {
            threshold: Threshold::Fixed(1),
            fineness: 1,
            smooth: 1,
            pace: Pace::Ended,
            start: Start::Tick,
        }),
    }
}
