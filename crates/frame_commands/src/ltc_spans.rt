//! What `ltc-spans` makes of frames: a line of each span, and of each gap between two. Read next:
//! `tape_spans/src/tape.rt`, and then `tape_spans/src/texts.rt` for the lines.
ghost use Rattle.std.specs.Prelude.{◌<◌, ◌^◌, IfSome};
ghost use Rattle.tape_spans.specs.StandsFor.{cut_lines, ended_lines, gap_lines};
ghost use Rattle.tape_spans.specs.Tape.{FitsCut, FitsSpan};

use crate::flight::work_frames;
use crate::frame_sink::FrameSink;
use crate::frames::Frames;
use crate::laws::{
    each_sink_of_frames_adds_in_order, what_is_heard_is_in_order, what_is_heard_tells_the_tape,
    what_is_made_of_frames_is_in_order,
};
use direction_reader::laws::events_come_in_order;
use flywheel::Frame;
use flywheel::laws::{a_frame_that_goes_on_is_the_next, invention_is_bounded_and_marked};
use interval_file::IntervalHeader;
use interval_file::laws::recordings_grow;
use tape_spans::laws::{
    a_span_ends_stepped, spans_come_in_order, spans_share_the_frames_out,
    the_open_span_has_the_last_line,
};
use tape_spans::{Cut, Gap, Span, TapeSpans, gap_text, span_text};
use tc_address::System;
use tc_command::{Command, Output, Stop, Way};
use tc_job::Flight;

/// `ltc-spans`: a line for each span of a recording, as `flight` finds its frames, and between two
/// of them one for the gap.
#[derive(Clone, Copy)]
pub struct LtcSpans {
    pub flight: Flight,
}

impl Command for LtcSpans {
    ghost use Rattle.frame_commands.specs.LtcSpans.{told_ltc_spans};

    ghost told = { λ command. told_ltc_spans command.flight };

    fn work<W: Way>(&self, way: &mut W) -> Result<(), Stop> {
        work_frames::<SpanLines, W>(self.flight, way)
    }

    /// The spans share out the frames of the file.
    fn keeps_its_promise(&self) {
        invention_is_bounded_and_marked();
        a_frame_that_goes_on_is_the_next();
        spans_share_the_frames_out();
        the_open_span_has_the_last_line();
        a_span_ends_stepped();
        what_is_heard_tells_the_tape();
        events_come_in_order();
        spans_come_in_order();
    }

    fn is_lawful() {
        recordings_grow();
        what_is_made_of_frames_is_in_order();
        each_sink_of_frames_adds_in_order();
        what_is_heard_is_in_order();
    }
}

/// The lines of spans, which say the speed at the header's tick rate and system.
#[derive(Drop)]
pub(crate) struct SpanLines {
    tape: TapeSpans,
    tick_rate: u32,
    system: System,
}

/// Writes the line of a gap, if there is one.
fn write_gap<O: Output>(gap: Option<Gap>, out: &mut O)
    requires { IfSome gap (λ gap. gap.ticks < 2 ^ 60) }
    ensures { O.given out.old out.new (gap_lines gap) }
{
    if let Some(gap) = gap {
        out.write(&gap_text(&gap));
    }
}

impl SpanLines {
    /// Writes the line of a span, if there is one.
    fn write_span<O: Output>(&self, span: Option<Span>, out: &mut O)
        requires { IfSome span FitsSpan }
        ensures { O.given out.old out.new (ended_lines self.now.tick_rate self.now.system span) }
    {
        if let Some(span) = span {
            out.write(&span_text(&span, self.tick_rate, self.system));
        }
    }

    /// Writes what a frame completes: the span that ended, and the gap behind it.
    fn write_cut<O: Output>(&self, cut: Cut, out: &mut O)
        requires { FitsCut cut }
        ensures { O.given out.old out.new (cut_lines self.now.tick_rate self.now.system cut) }
    {
        self.write_span(cut.ended, out);
        write_gap(cut.gap, out);
    }
}

impl FrameSink for SpanLines {
    ghost use Rattle.tape_spans.specs.Tape.{frames_taken};
    ghost use Rattle.frame_commands.specs.KeptSpans.{HasTold};
    ghost use Rattle.frame_commands.specs.LtcSpans.{lines_of_spans};

    type Choice = Flight;

    ghost flight = { λ choice. choice };

    ghost made = { λ choice. lines_of_spans };

    ghost given = { λ s choice header frames. HasTold s.tape s.tick_rate s.system header frames };

    ghost taken = { λ s. frames_taken s.tape };

    fn flight(choice: Flight) -> Flight {
        choice
    }

    fn begin<O: Output>(_choice: Flight, header: &IntervalHeader, _out: &mut O) -> SpanLines {
        SpanLines {
            tape: TapeSpans::new(),
            tick_rate: header.tick_rate,
            system: header.system,
        }
    }

    #[tactic(auto, using(crate::proofs::SpansOfFrames::fits_tick))]
    fn frame<O: Output>(&mut self, frame: &Frame, out: &mut O) {
        let cut = self.tape.frame(frame);
        self.write_cut(cut, out);
    }

    /// It has no limit of its own.
    #[inline(always)]
    fn is_spent(&self) -> bool {
        false
    }

    fn finish<O: Output>(&self, _frames: &Frames, intervals: u64, ticks: u64, out: &mut O) {
        self.write_span(self.tape.current(), out);
        out.write(&self.tape.end_text(intervals, ticks));
    }
}
