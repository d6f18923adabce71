//! What `ltc-fly` makes of frames: a line of each. Read next: `report_text/src/frame.rt`.
use crate::flight::work_frames;
use crate::frame_sink::FrameSink;
use crate::frames::Frames;
use crate::laws::{
    each_sink_of_frames_adds_in_order, what_is_heard_is_in_order, what_is_heard_tells_the_tape,
    what_is_made_of_frames_is_in_order,
};
use flywheel::Frame;
use flywheel::laws::invention_is_bounded_and_marked;
use interval_file::IntervalHeader;
use interval_file::laws::recordings_grow;
use report_text::frame_text;
use tc_command::{Command, Output, Stop, Way};
use tc_job::Flight;

/// `ltc-fly`: a line for each frame of a recording, as `flight` finds its frames.
#[derive(Clone, Copy)]
pub struct LtcFly {
    pub flight: Flight,
}

impl Command for LtcFly {
    ghost use Rattle.frame_commands.specs.LtcFly.{told_ltc_fly};

    ghost told = { λ command. told_ltc_fly command.flight };

    fn work<W: Way>(&self, way: &mut W) -> Result<(), Stop> {
        work_frames::<FrameLines, W>(self.flight, way)
    }

    /// The frames are the words of the file, and invented ones that are marked and bounded.
    fn keeps_its_promise(&self) {
        invention_is_bounded_and_marked();
        what_is_heard_tells_the_tape();
    }

    fn is_lawful() {
        recordings_grow();
        what_is_made_of_frames_is_in_order();
        each_sink_of_frames_adds_in_order();
        what_is_heard_is_in_order();
    }
}

/// The lines of frames. The choice is how the frames are found.
#[derive(Drop)]
pub(crate) struct FrameLines;

impl FrameSink for FrameLines {
    ghost use Rattle.frame_commands.specs.LtcFly.{lines_of_frames};

    type Choice = Flight;

    ghost flight = { λ choice. choice };

    ghost made = { λ choice. lines_of_frames };

    ghost given = { λ s choice header frames. Unit {0} };

    ghost taken = { λ _. 0 };

    fn flight(choice: Flight) -> Flight {
        choice
    }

    fn begin<O: Output>(_choice: Flight, _header: &IntervalHeader, _out: &mut O) -> FrameLines {
        FrameLines
    }

    fn frame<O: Output>(&mut self, frame: &Frame, out: &mut O) {
        out.write(&frame_text(frame));
    }

    /// It has no limit of its own.
    #[inline(always)]
    fn is_spent(&self) -> bool {
        false
    }

    fn finish<O: Output>(&self, frames: &Frames, intervals: u64, ticks: u64, out: &mut O) {
        out.write(&frames.end_text(intervals, ticks));
    }
}
