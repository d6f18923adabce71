//! The first maker of sound of a handle. Read next: `label_exports`.
ghost use Rattle.std.specs.Prelude.{[]};
ghost use Rattle.std.specs.Borrow.{sem};
ghost use Rattle.code_maker.specs.Sound.{StandsFor};
ghost use Rattle.tc_c.specs.Opening.{HasSound, HasSoundRoom};

use crate::sound_handle::TcSound;
use crate::sound_kept::KeptSound;
use code_maker::SoundMaker;

/// Makes a maker in room of the caller's, with a level that it has until `tc_sound_start_` gives another.
#[unsafe(no_mangle)]
pub unsafe extern "C" fn tc_sound_at(room: *mut u8, handle: *mut TcSound)
    requires* { sem 𝓛 (HasSoundRoom room handle) }
    ensures* { sem 𝓛 (HasSound room handle) }
{
    let sound = blank();
    unsafe {
        room.cast::<KeptSound>().write(sound);
        handle.write(TcSound { at: room });
    }
}

/// One of silence, before its first interval.
fn blank() -> KeptSound
    ensures { StandsFor result [] [] }
{
    KeptSound {
        sound: SoundMaker::new(0),
    }
}
