//! The frames of the words that are heard: a flywheel invents those that are missing. Read next:
//! `flywheel/src/wheel.rt`.
ghost use Rattle.std.specs.Prelude.{◌≡◌, ◌≤◌, ◌<◌, ◌^◌, ◌*◌, ◌+◌, ℕ, List, [], IsTrue, IfSome};
ghost use Rattle.std.specs.Option.{option_to_list};
ghost use Rattle.limits.specs.declared.recording.TheConstants.{MAX_INTERVALS};
ghost use Rattle.flywheel.specs.declared.frame.Frame.{Frame};
ghost use Rattle.flywheel.specs.declared.heard.HeardWord.{HeardWord};
ghost use Rattle.report_text.specs.FrameTexts.{fly_end_line, FitsFrameLine};
ghost use Rattle.frame_commands.specs.Hearing.{due_at};
ghost use Rattle.frame_commands.specs.KeptFlight.{
  BeginsFlight,
  counted,
  frames_counted,
  frames_to_come,
  Counts,
  FitsFlight,
  GivesDue,
  GivesNext,
  HasGiven,
  HeardBy,
  IsGiving,
};

use crate::words::Words;
use flywheel::laws::{frames_come_in_order, frames_of_a_front_come_first};
use flywheel::{Flywheel, Frame};
use limits::MAX_INTERVALS;
use line_text::Text;
use report_text::fly_end_text;

/// The frames of the words that are heard: the flywheel, and how many frames of each kind were given.
#[derive(Drop)]
pub(crate) struct Frames {
    pub wheel: Flywheel,
    pub heard: u64,
    pub invented: u64,
    pub gone: u64,
    /// The words that are still to be heard.
    pub words: Words,
}

impl Frames {
    /// Before the first word, with at most `limit` invented frames in a row.
    pub(crate) fn new(limit: u8) -> Frames
        ensures { BeginsFlight result limit }
    {
        Frames {
            wheel: Flywheel::new(limit),
            heard: 0,
            invented: 0,
            gone: 0,
            words: Words::new(),
        }
    }

    /// The next frame of the words that wait, up to a tick: one that is due, or else that of the next word.
    pub(crate) fn next(&mut self, until: u64) -> Option<Frame>
        requires { (most : ℕ) × IsGiving self.old most until }
        ensures ready { (most : ℕ) → IsGiving self.old most until → IsGiving self.new most until }
        ensures limit { self.new.wheel.limit ≡ self.old.wheel.limit }
        ensures line { IfSome result FitsFrameLine }
        ensures counted { Counts self.old self.new (option_to_list result) }
        ensures fewer { IfSome result (λ _. frames_to_come self.new < frames_to_come self.old) }
        ensures gives { (words : List HeardWord) (given : List Frame) → HasGiven self.old until words given
            → GivesNext self.new until words given result }
        ensures none { result ≡ None → HeardBy until self.new.wheel }
    {
        if let Some(frame) = self.wheel.passed(self.words.due_at(until)) {
            self.count(&frame);
            return Some(frame);
        }
        let word = self.words.next()?;
        let frame = self.wheel.heard(&word);
        self.count(&frame);
        Some(frame)
    }

    /// Counts a frame.
    fn count(&mut self, frame: &Frame)
        requires { frames_counted self.old < 2 ^ 40 }
        ensures counted { self.new ≡ counted frame.now self.old }
        ensures wheel { self.new.wheel ≡ self.old.wheel }
        ensures words { self.new.words ≡ self.old.words }
    {
        match frame {
            Frame::Heard { .. } => self.heard += 1,
            Frame::Invented { .. } => self.invented += 1,
            Frame::Gone { .. } => self.gone += 1,
        }
    }

    /// Whether no frame is due at the tick, and so none at an earlier one.
    #[inline(always)]
    pub(crate) fn is_quiet(&self, until: u64) -> bool
        requires below { until < 2 ^ 60 }
        requires heard_by { HeardBy until self.now.wheel }
        ensures quiet { IsTrue result → (by : ℕ) → by ≤ until → GivesDue self.now.wheel self.now.wheel by [] }
    {
        frames_come_in_order();
        frames_of_a_front_come_first();
        !self.wheel.due(until)
    }

    /// The line that counts what was given, after `intervals` intervals, whose sum is `ticks`.
    pub(crate) fn end_text(&self, intervals: u64, ticks: u64) -> Text
        requires fits { FitsFlight self.now (2 * MAX_INTERVALS + 2) }
        requires intervals { intervals < 2 ^ 40 }
        requires ticks { ticks < 2 ^ 60 }
        ensures { result.items ≡ fly_end_line intervals self.now.heard self.now.invented self.now.gone ticks }
    {
        fly_end_text(intervals, self.heard, self.invented, self.gone, ticks)
    }
}
