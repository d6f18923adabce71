//! The functions of a writer of MIDI Time Code that C calls. Read next: `mtc_event`.
ghost use Rattle.std.specs.Prelude.{◌≡◌, ◌≤◌, ◌<◌, [], length, take, drop, true, false};
ghost use Rattle.std.specs.Align.{type_align};
ghost use Rattle.std.specs.Mem.{type_size};
ghost use Rattle.flywheel.specs.declared.frame.Frame.{Frame};
ghost use Rattle.quarter_frame.specs.StandsFor.{StandsFor};
ghost use Rattle.tc_c.specs.contracts.mtc_writer_kept.KeptMtcWriter.{the_row};
ghost use Rattle.tc_c.specs.CFrame.{MeansFrame};
ghost use Rattle.tc_c.specs.Write.{MtcWrites};

use crate::frame::TcFrame;
use crate::given::{TcGiven, refused};
use crate::mtc_write::{MOST, write_mtc};
use crate::mtc_writer_handle::TcMtcWriter;
use crate::mtc_writer_kept::KeptMtcWriter;
use quarter_frame::QuarterWriter;

/// How many bytes a writer of MIDI Time Code takes.
#[unsafe(no_mangle)]
pub extern "C" fn tc_mtc_writer_bytes() -> usize
    ensures { result ≡ type_size the_row }
{
    std::mem::size_of::<KeptMtcWriter>()
}

/// On what boundary they begin.
#[unsafe(no_mangle)]
pub extern "C" fn tc_mtc_writer_boundary() -> usize
    ensures { result ≡ type_align the_row }
{
    std::mem::align_of::<KeptMtcWriter>()
}

/// Begins anew: the next frame begins a run.
#[unsafe(no_mangle)]
pub extern "C" fn tc_mtc_writer_start_(handle: &mut TcMtcWriter)
    ensures stands { StandsFor handle.new.value [] }
    ensures place { handle.new.at ≡ handle.old.at }
{
    handle.writer().writer = QuarterWriter::new();
}

/// Writes the messages of the next frame, where the numbers mean one and there is room for 18 bytes.
#[unsafe(no_mangle)]
pub extern "C" fn tc_mtc_writer_write_(
    handle: &mut TcMtcWriter,
    frame: &TcFrame,
    bytes: &mut [u8],
) -> TcGiven
    ensures writes { (f : Frame) → MeansFrame frame.now f → result.done ≡ true
        → MtcWrites handle.old.value handle.new.value f (take result.made bytes.new) }
    ensures done { (f : Frame) → MeansFrame frame.now f → 18 ≤ length bytes.old → result.done ≡ true }
    ensures means { result.done ≡ true → (f : Frame) × MeansFrame frame.now f }
    ensures room { result.done ≡ true → 18 ≤ length bytes.old }
    ensures taken { (f : Frame) → MeansFrame frame.now f → result.refused ≡ false }
    ensures refused { result.refused ≡ false → (f : Frame) × MeansFrame frame.now f }
    ensures made { result.made ≤ 18 }
    ensures rest { drop result.made bytes.new ≡ drop result.made bytes.old }
    ensures same { result.done ≡ false → (handle.new.value ≡ handle.old.value) × (result.made ≡ 0) }
    ensures few { length bytes.old < 18 → (result.made ≡ 0) × (result.done ≡ false)
        × (handle.new.value ≡ handle.old.value) }
    ensures place { handle.new.at ≡ handle.old.at }
{
    let Some(frame) = frame.meaning() else {
        return refused();
    };
    if bytes.len() < MOST {
        return TcGiven {
            made: 0,
            done: false,
            refused: false,
        };
    }
    let made = write_mtc(&mut handle.writer().writer, &frame, bytes);
    TcGiven {
        made,
        done: true,
        refused: false,
    }
}
