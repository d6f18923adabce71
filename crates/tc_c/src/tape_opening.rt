//! The first reader of a tape of a handle. Read next: `wheel_exports`.
ghost use Rattle.std.specs.Prelude.{[]};
ghost use Rattle.std.specs.Borrow.{sem};
ghost use Rattle.tape_reader.specs.Tape.{StandsFor};
ghost use Rattle.tc_c.specs.Opening.{HasTape, HasTapeRoom};

use crate::tape_handle::TcTape;
use crate::tape_kept::KeptTape;
use biphase::Profile;
use direction_reader::Witness;
use tape_reader::{TapeReader, TapeSettings};
use tc_address::System;

/// Makes a reader in room of the caller's, with settings that it has until `tc_tape_start_` gives others.
#[unsafe(no_mangle)]
pub unsafe extern "C" fn tc_tape_at(room: *mut u8, handle: *mut TcTape)
    requires* { sem 𝓛 (HasTapeRoom room handle) }
    ensures* { sem 𝓛 (HasTape room handle) }
{
    let tape = blank();
    unsafe {
        room.cast::<KeptTape>().write(tape);
        handle.write(TcTape { at: room });
    }
}

/// One of 25 frames a second that was given nothing.
fn blank() -> KeptTape
    ensures { StandsFor result [] [] }
{
    KeptTape {
        tape: TapeReader::new(TapeSettings {
            system: System::F25,
            profile: Profile::Normal,
            witness: Witness::NotAsked,
        }),
    }
}
