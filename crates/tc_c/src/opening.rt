//! The first reader of a handle. Read next: `kept`.
ghost use Rattle.std.specs.Prelude.{[]};
ghost use Rattle.std.specs.Borrow.{sem};
ghost use Rattle.sound_reader.specs.Sound.{StandsFor};
ghost use Rattle.tc_c.specs.Opening.{HasReader, HasRoom};

use crate::handle::TcReader;
use crate::kept::KeptReader;
use biphase::Profile;
use pcm_front::{Pace, Threshold};
use sound_reader::{SoundReader, SoundSettings};
use tc_address::System;

/// Makes a reader in room of the caller's, with settings that it has until `tc_reader_start_` gives others.
#[unsafe(no_mangle)]
pub unsafe extern "C" fn tc_reader_at(room: *mut u8, handle: *mut TcReader)
    requires* { sem 𝓛 (HasRoom room handle) }
    ensures* { sem 𝓛 (HasReader room handle) }
{
    let reader = blank();
    unsafe {
        room.cast::<KeptReader>().write(reader);
        handle.write(TcReader { at: room });
    }
}

/// One of 25 frames a second that was given nothing.
fn blank() -> KeptReader
    ensures { StandsFor result [] [] }
{
    KeptReader {
        reader: SoundReader::new(SoundSettings {
            system: System::F25,
            profile: Profile::Normal,
            threshold: Threshold::Fixed(1),
            fineness: 1,
            smooth: 1,
            pace: Pace::Ended,
        }),
    }
}
