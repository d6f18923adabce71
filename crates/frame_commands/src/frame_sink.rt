//! What a command makes of the frames of a recording. Read next: `ltc_fly`, `ltc_spans`, `ltc_mtc`, `jam` and
//! `ltc_chase`.
ghost use Rattle.std.specs.Prelude.{◌≡◌, ℕ, true, false, List, [], ◌∷◌, ◌+◌, ◌-◌, ◌*◌, ◌<◌, ◌≤◌, ◌^◌};
ghost use Rattle.limits.specs.declared.recording.TheConstants.{MAX_INTERVALS};
ghost use Rattle.flywheel.specs.declared.frame.Frame.{Frame};
ghost use Rattle.interval_file.specs.declared.header.IntervalHeader.{IntervalHeader};
ghost use Rattle.report_text.specs.FrameTexts.{FitsFrameLine};
ghost use Rattle.tc_job.specs.declared.flight.Flight.{Flight};
ghost use Rattle.frame_commands.specs.KeptFlight.{CountsAll, FitsFlight, Sends};
ghost use Rattle.frame_commands.specs.OfFrames.{AreTooMany, FrameText};

use crate::frames::Frames;
use flywheel::Frame;
use interval_file::IntervalHeader;
use limits::MAX_INTERVALS;
use tc_command::Output;
use tc_job::Flight;

/// What a command makes of the frames of a recording, one after another.
pub(crate) trait FrameSink: Drop {
    /// What the words choose for it.
    type Choice: Copy;

    /// How the frames are found.
    ghost flight: { Self.Choice → Flight };

    /// What it writes.
    ghost made: { Self.Choice → FrameText };

    /// It was begun with this choice and this header, and was given these frames.
    ghost given: { Self → Self.Choice → IntervalHeader → List Frame → Type 0 };

    /// How many frames it has counted, at most as many as it was given.
    ghost taken: { Self → ℕ };

    /// How the frames are found.
    fn flight(choice: Self::Choice) -> Flight
        ensures { result ≡ flight choice };

    /// Writes what comes first.
    fn begin<O: Output>(choice: Self::Choice, header: &IntervalHeader, out: &mut O) -> Self
        ensures begins { given result choice header.now []
            × O.given out.old out.new (FrameText.text (made choice) header.now []) }
        ensures none { taken result ≡ 0 };

    /// Writes what the next frame brings.
    fn frame<O: Output>(&mut self, frame: &Frame, out: &mut O)
        requires line { FitsFrameLine frame.now }
        requires room { taken self.old < 2 ^ 40 - 1 }
        ensures taken { taken self.new ≤ taken self.old + 1 }
        ensures sends { Sends made given O.given self.old self.new out.old out.new (frame.now ∷ []) };

    /// Whether the frames that it was given pass a limit of the command's own.
    fn is_spent(&self) -> bool
        ensures spent { result ≡ true → (choice : Self.Choice) (header : IntervalHeader) (frames : List Frame)
            → given self.now choice header frames → AreTooMany (FrameText.most (made choice)) frames }
        ensures going { result ≡ false → (choice : Self.Choice) (header : IntervalHeader) (frames : List Frame)
            → given self.now choice header frames → ¬ AreTooMany (FrameText.most (made choice)) frames };

    /// Writes what comes last, after `intervals` intervals, whose sum is `ticks`. `frames` has counted what
    /// was given.
    fn finish<O: Output>(&self, frames: &Frames, intervals: u64, ticks: u64, out: &mut O)
        requires fits { FitsFlight frames.now (2 * MAX_INTERVALS + 2) }
        requires room { taken self.now < 2 ^ 40 }
        requires count { intervals ≤ MAX_INTERVALS }
        requires below { ticks < 2 ^ 60 }
        ensures { (choice : Self.Choice) (header : IntervalHeader) (list : List ℕ) (given_frames : List Frame)
            → given self.now choice header given_frames → CountsAll frames.now intervals ticks list given_frames
            → O.given out.old out.new (FrameText.last (made choice) header list given_frames) };
}
