//! The first reader of MIDI Time Code of a handle. Read next: `maker_exports`.
ghost use Rattle.std.specs.Prelude.{[]};
ghost use Rattle.std.specs.Borrow.{sem};
ghost use Rattle.tc_c.specs.CMtc.{HasTold};
ghost use Rattle.tc_c.specs.Opening.{HasMtcReader, HasMtcReaderRoom};

use crate::mtc_reader_handle::TcMtcReader;
use crate::mtc_reader_kept::KeptMtcReader;
use mtc_reader::MtcReader;

/// Makes a reader in room of the caller's, before its first byte.
#[unsafe(no_mangle)]
pub unsafe extern "C" fn tc_mtc_reader_at(room: *mut u8, handle: *mut TcMtcReader)
    requires* { sem 𝓛 (HasMtcReaderRoom room handle) }
    ensures* { sem 𝓛 (HasMtcReader room handle) }
{
    let reader = blank();
    unsafe {
        room.cast::<KeptMtcReader>().write(reader);
        handle.write(TcMtcReader { at: room });
    }
}

/// One that was given no byte.
fn blank() -> KeptMtcReader
    ensures { HasTold result [] [] }
{
    KeptMtcReader {
        reader: MtcReader::new(),
    }
}
