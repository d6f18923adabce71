//! What `ltc-jam` makes of frames: a clean recording. Read next: `ltc_jam/src/cells.rt`, and then
//! `tc_command/src/output.rt`.
ghost use Rattle.std.specs.Prelude.{◌≡◌, ◌≤◌, ◌+◌, ◌*◌, ◌++◌, length};
ghost use Rattle.arrayvec.specs.ArrayVec.{array_vec_len};
ghost use Rattle.interval_file.specs.declared.header.FileVersion.TheVariants.{One};
ghost use Rattle.interval_file.specs.Grammar.{intervals_bytes};

use crate::flight::work_frames;
use crate::frame_sink::FrameSink;
use crate::frames::Frames;
use crate::laws::{
    each_sink_of_frames_adds_in_order, what_is_heard_is_in_order, what_is_jammed_is_read,
    what_is_made_of_frames_is_in_order,
};
use flywheel::Frame;
use interval_file::laws::recordings_grow;
use interval_file::{FileVersion, IntervalHeader, interval_header};
use ltc_jam::laws::a_clean_recording_is_written_frame_by_frame;
use ltc_jam::{frame_cells, lead};
use tc_command::{Command, Output, PIECE, Piece, Stop, Way, put_interval};
use tc_io::put_bytes;
use tc_job::{Flight, Jam};

/// `ltc-jam`: a clean recording of the frames of a recording.
#[derive(Clone, Copy)]
pub struct LtcJam {
    pub jam: Jam,
}

impl Command for LtcJam {
    ghost use Rattle.frame_commands.specs.LtcJam.{told_ltc_jam};

    ghost told = { λ command. told_ltc_jam command.jam };

    fn work<W: Way>(&self, way: &mut W) -> Result<(), Stop> {
        work_frames::<CleanRecording, W>(self.jam, way)
    }

    /// What is written is a clean recording.
    fn keeps_its_promise(&self) {
        what_is_jammed_is_read();
        let _cell = self.jam.cell();
    }

    fn is_lawful() {
        recordings_grow();
        what_is_made_of_frames_is_in_order();
        each_sink_of_frames_adds_in_order();
        what_is_heard_is_in_order();
    }
}

/// A clean recording of frames, in the cells that were given.
#[derive(Drop)]
pub(crate) struct CleanRecording {
    jam: Jam,
}

impl FrameSink for CleanRecording {
    ghost use Rattle.std.specs.Prelude.{◌≡◌};
    ghost use Rattle.frame_commands.specs.LtcJam.{file_of_frames};

    type Choice = Jam;

    ghost flight = { λ jam. jam.flight };

    ghost made = { λ jam. file_of_frames jam };

    ghost given = { λ s jam header frames. s.jam ≡ jam };

    ghost taken = { λ _. 0 };

    fn flight(jam: Jam) -> Flight {
        jam.flight()
    }

    /// The header, and the cells by which a reader locks.
    fn begin<O: Output>(jam: Jam, header: &IntervalHeader, out: &mut O) -> CleanRecording {
        a_clean_recording_is_written_frame_by_frame();
        let header = interval_header(&IntervalHeader {
            version: FileVersion::One,
            system: header.system,
            tick_rate: jam.tick_rate(),
        });
        let mut room = Piece::new();
        put_bytes(&mut room, &header);
        push_intervals(&mut room, &lead(jam.cell()));
        out.write(&room);
        CleanRecording { jam }
    }

    /// The cells of a frame go out at once. The end of invention has none.
    fn frame<O: Output>(&mut self, frame: &Frame, out: &mut O) {
        a_clean_recording_is_written_frame_by_frame();
        let mut room = Piece::new();
        push_intervals(&mut room, &frame_cells(self.jam.cell(), frame));
        out.write(&room);
    }

    /// It has no limit of its own.
    #[inline(always)]
    fn is_spent(&self) -> bool {
        false
    }

    fn finish<O: Output>(&self, _frames: &Frames, _intervals: u64, _ticks: u64, _out: &mut O) {}
}

/// Intervals for which there is room.
fn push_intervals(room: &mut Piece, intervals: &[u32])
    requires { array_vec_len room.old + 4 * length intervals.now ≤ PIECE }
    ensures { room.new.items ≡ room.old.items ++ intervals_bytes One intervals.now }
{
    'intervals: for interval in intervals {
        put_interval(room, *interval);
    }
}
