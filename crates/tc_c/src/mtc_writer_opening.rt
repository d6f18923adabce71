//! The first writer of MIDI Time Code of a handle. Read next: `mtc_reader_exports`.
ghost use Rattle.std.specs.Prelude.{[]};
ghost use Rattle.std.specs.Borrow.{sem};
ghost use Rattle.quarter_frame.specs.StandsFor.{StandsFor};
ghost use Rattle.tc_c.specs.Opening.{HasMtcWriter, HasMtcWriterRoom};

use crate::mtc_writer_handle::TcMtcWriter;
use crate::mtc_writer_kept::KeptMtcWriter;
use quarter_frame::QuarterWriter;

/// Makes a writer in room of the caller's, before its first frame.
#[unsafe(no_mangle)]
pub unsafe extern "C" fn tc_mtc_writer_at(room: *mut u8, handle: *mut TcMtcWriter)
    requires* { sem 𝓛 (HasMtcWriterRoom room handle) }
    ensures* { sem 𝓛 (HasMtcWriter room handle) }
{
    let writer = blank();
    unsafe {
        room.cast::<KeptMtcWriter>().write(writer);
        handle.write(TcMtcWriter { at: room });
    }
}

/// One that was given no frame.
fn blank() -> KeptMtcWriter
    ensures { StandsFor result [] }
{
    KeptMtcWriter {
        writer: QuarterWriter::new(),
    }
}
