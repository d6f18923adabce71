//! Frames in, and the bytes of MIDI Time Code out. Read next: `mtc_writer_handle`.
ghost use Rattle.std.specs.Prelude.{◌≡◌, ◌≤◌, length, take, drop};
ghost use Rattle.tc_c.specs.Write.{MtcWrites};

use flywheel::Frame;
use quarter_frame::QuarterWriter;

/// A frame may have so many bytes.
pub(crate) const MOST: usize = 18;

/// Writes the messages of the next frame, and gives how many bytes these are.
pub(crate) fn write_mtc(writer: &mut QuarterWriter, frame: &Frame, bytes: &mut [u8]) -> usize
    requires { 18 ≤ length bytes.old }
    ensures made { result ≤ 18 }
    ensures writes { MtcWrites writer.old writer.new frame.now (take result bytes.new) }
    ensures rest { drop result bytes.new ≡ drop result bytes.old }
{
    let mut room = [0; MOST];
    let count = writer.frame(frame, &mut room);
    bytes[..count].copy_from_slice(&room[..count]);
    count
}
