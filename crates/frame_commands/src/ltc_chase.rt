//! What `ltc-chase` makes of frames: the steps of a chase that follows them. Read next:
//! `code_chase/src/master.rt`, and then `chase_script/src/texts.rt` for the lines.
ghost use Rattle.std.specs.Prelude.{◌≡◌, ◌<◌, ◌+◌};
ghost use Rattle.chase_script.specs.TraceText.{step_line};
ghost use Rattle.code_chase.specs.CodeTrace.{next_line};
ghost use Rattle.frame_commands.specs.KeptSteps.{stepped};

use crate::flight::work_frames;
use crate::frame_sink::FrameSink;
use crate::frames::Frames;
use crate::laws::{
    each_sink_of_frames_adds_in_order, what_is_chased_follows_the_code, what_is_heard_is_in_order,
    what_is_made_of_frames_is_in_order,
};
use chase_script::{step_end_text, step_text};
use code_chase::CodeChase;
use code_chase::laws::a_frame_adds_a_line;
use flywheel::Frame;
use interval_file::IntervalHeader;
use interval_file::laws::recordings_grow;
use line_text::Text;
use std::marker::Model;
use tc_address::Count;
use tc_command::{Command, Output, Stop, Way};
use tc_job::{ChaseRun, Flight};

/// How many frames one run follows at most. A further one ends it.
pub const MAX_FRAMES: u64 = 100_000_000;

/// `ltc-chase`: the steps of a chase over the frames of a recording.
#[derive(Clone, Copy)]
pub struct LtcChase {
    pub run: ChaseRun,
}

impl Command for LtcChase {
    ghost use Rattle.frame_commands.specs.LtcChase.{told_ltc_chase};

    ghost told = { λ command. told_ltc_chase command.run };

    fn work<W: Way>(&self, way: &mut W) -> Result<(), Stop> {
        work_frames::<StepLines, W>(self.run, way)
    }

    /// What is written is the trace of a chase that follows the frames.
    fn keeps_its_promise(&self) {
        what_is_chased_follows_the_code();
        let _label = self.run.label();
    }

    fn is_lawful() {
        recordings_grow();
        what_is_made_of_frames_is_in_order();
        each_sink_of_frames_adds_in_order();
        what_is_heard_is_in_order();
    }
}

/// The lines of the steps of a chase.
#[derive(Drop)]
pub(crate) struct StepLines {
    chase: CodeChase,
    count: Count,
    steps: u64,
    losses: u64,
    is_spent: bool,
}

impl Model for StepLines {
    ghost use Rattle.frame_commands.specs.KeptSteps.{IsStepping, Stepping};

    ghost Value = { Stepping };

    ghost view = { λ s. record {
      chase = s.chase;
      count = s.count;
      steps = s.steps;
      losses = s.losses;
      is_spent = s.is_spent;
    } };

    ghost invariant = { λ s. IsStepping (record {
      chase = s.chase;
      count = s.count;
      steps = s.steps;
      losses = s.losses;
      is_spent = s.is_spent;
    }) };
}

impl StepLines {
    /// Makes the step of a frame, and its line.
    fn step(&mut self, frame: &Frame) -> Text
        requires { self.old.steps < MAX_FRAMES }
        ensures line { result.items
            ≡ step_line self.old.count (self.old.steps + 1) (next_line self.old.chase frame.now) }
        ensures next { self.new ≡ stepped self.old frame.now }
    {
        let report = self.chase.frame(frame);
        self.steps += 1;
        if report.loss.is_some() {
            self.losses += 1;
        }
        step_text(self.steps, &report, self.count, self.chase.position())
    }
}

impl FrameSink for StepLines {
    ghost use Rattle.frame_commands.specs.declared.ltc_chase.TheConstants.{MAX_FRAMES};
    ghost use Rattle.frame_commands.specs.KeptSteps.{HasFollowed};
    ghost use Rattle.frame_commands.specs.LtcChase.{lines_of_steps};

    type Choice = ChaseRun;

    ghost flight = { λ run. run.flight };

    ghost made = { λ run. lines_of_steps run };

    ghost given = { λ s run header frames. HasFollowed MAX_FRAMES run s frames };

    ghost taken = { λ _. 0 };

    fn flight(run: ChaseRun) -> Flight {
        run.flight()
    }

    fn begin<O: Output>(run: ChaseRun, _header: &IntervalHeader, _out: &mut O) -> StepLines {
        a_frame_adds_a_line();
        let label = run.label();
        StepLines {
            chase: CodeChase::new(&label, run.seed(), run.bound()),
            count: label.count(),
            steps: 0,
            losses: 0,
            is_spent: false,
        }
    }

    /// The line of a step goes out at once. A frame past the limit is not followed.
    fn frame<O: Output>(&mut self, frame: &Frame, out: &mut O) {
        a_frame_adds_a_line();
        if self.steps == MAX_FRAMES {
            self.is_spent = true;
            return;
        }
        let line = self.step(frame);
        out.write(&line);
    }

    fn is_spent(&self) -> bool {
        self.is_spent
    }

    fn finish<O: Output>(&self, _frames: &Frames, _intervals: u64, _ticks: u64, out: &mut O) {
        a_frame_adds_a_line();
        out.write(&step_end_text(self.steps, self.losses));
    }
}
