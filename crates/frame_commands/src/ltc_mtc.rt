//! What `ltc-mtc` makes of frames: MIDI Time Code. Read next: `quarter_frame/src/writer.rt`.
use crate::flight::work_frames;
use crate::frame_sink::FrameSink;
use crate::frames::Frames;
use crate::laws::{
    each_sink_of_frames_adds_in_order, what_is_heard_is_in_order, what_is_heard_tells_the_tape,
    what_is_made_of_frames_is_in_order,
};
use flywheel::Frame;
use flywheel::laws::invention_is_bounded_and_marked;
use interval_file::IntervalHeader;
use interval_file::laws::recordings_grow;
use quarter_frame::QuarterWriter;
use tc_command::{Command, Output, Stop, Way};
use tc_job::Flight;

/// `ltc-mtc`: the frames of a recording, as `flight` finds them, as MIDI Time Code.
#[derive(Clone, Copy)]
pub struct LtcMtc {
    pub flight: Flight,
}

impl Command for LtcMtc {
    ghost use Rattle.frame_commands.specs.LtcMtc.{told_ltc_mtc};

    ghost told = { λ command. told_ltc_mtc command.flight };

    fn work<W: Way>(&self, way: &mut W) -> Result<(), Stop> {
        work_frames::<FrameMessages, W>(self.flight, way)
    }

    /// What is sent are the words of the file, and bounded invented frames.
    fn keeps_its_promise(&self) {
        invention_is_bounded_and_marked();
        what_is_heard_tells_the_tape();
    }

    fn is_lawful() {
        recordings_grow();
        what_is_made_of_frames_is_in_order();
        each_sink_of_frames_adds_in_order();
        what_is_heard_is_in_order();
    }
}

/// The messages of frames. The choice is how the frames are found.
#[derive(Drop)]
pub(crate) struct FrameMessages {
    writer: QuarterWriter,
}

impl FrameSink for FrameMessages {
    ghost use Rattle.quarter_frame.specs.StandsFor.{StandsFor};
    ghost use Rattle.frame_commands.specs.LtcMtc.{messages_of_frames};

    type Choice = Flight;

    ghost flight = { λ choice. choice };

    ghost made = { λ choice. messages_of_frames };

    ghost given = { λ s choice header frames. StandsFor s.writer frames };

    ghost taken = { λ _. 0 };

    fn flight(choice: Flight) -> Flight {
        choice
    }

    fn begin<O: Output>(_choice: Flight, _header: &IntervalHeader, _out: &mut O) -> FrameMessages {
        FrameMessages {
            writer: QuarterWriter::new(),
        }
    }

    /// The messages of a frame go out at once. The end of invention has none.
    fn frame<O: Output>(&mut self, frame: &Frame, out: &mut O) {
        let mut room = [0; 18];
        let count = self.writer.frame(frame, &mut room);
        out.write(&room[..count]);
    }

    /// It has no limit of its own.
    #[inline(always)]
    fn is_spent(&self) -> bool {
        false
    }

    fn finish<O: Output>(&self, _frames: &Frames, _intervals: u64, _ticks: u64, _out: &mut O) {}
}
