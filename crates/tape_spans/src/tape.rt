//! The spans of a tape, a frame at a time. Read next: `texts`.
ghost use Rattle.std.specs.Prelude.{◌≡◌, ℕ, ◌+◌, ◌-◌, ◌<◌, ◌≤◌, ◌^◌, List, [], ◌∷◌, ◌++◌, IfSome};
ghost use Rattle.flywheel.specs.declared.frame.Frame.{Frame};
ghost use Rattle.tc_address.specs.declared.system.System.{System};
ghost use Rattle.tape_spans.specs.SpanTexts.{final_lines, last_spans_line, open_line};
ghost use Rattle.tape_spans.specs.Spans.{spans};
ghost use Rattle.tape_spans.specs.StandsFor.{cut_lines, ended_lines, StandsFor};
ghost use Rattle.tape_spans.specs.Tape.{
  after_frame,
  begun_in,
  blank,
  counted,
  cut_by,
  ended_at,
  frames_taken,
  gap_at,
  invented_at,
  joined_at,
  FitsCut,
  FitsSpan,
  FitsTick,
};

use crate::place::{Cut, OpenSpan, TapePlace};
use crate::span::{Mark, Span};
use crate::texts::spans_end_text;
use flywheel::Frame;
use line_text::Text;
use std::marker::Model;

/// How many spans there are, and how many frames were heard and bridged in them.
#[derive(Clone, Copy)]
struct Counts {
    spans: u64,
    heard: u64,
    bridged: u64,
}

/// Nothing ends, and nothing begins.
const NO_CUT: Cut = Cut {
    ended: None,
    gap: None,
};

/// The spans of a tape whose frames come one after another. It keeps no frame but the first and the last
/// of the span that is open.
#[derive(Drop)]
pub struct TapeSpans {
    place: TapePlace,
    spans: u64,
    heard: u64,
    bridged: u64,
}

impl Model for TapeSpans {
    ghost use Rattle.tape_spans.specs.Tape.{IsTape, Tape};

    ghost Value = { Tape };

    ghost view = { λ t. record { place = t.place; spans = t.spans; heard = t.heard; bridged = t.bridged } };

    ghost invariant = { λ t. IsTape t.place t.spans t.heard };
}

impl TapeSpans {
    /// A tape of which no frame came yet.
    pub fn new() -> TapeSpans
        ensures value { result ≡ blank }
        ensures stands { StandsFor result [] }
    {
        TapeSpans {
            place: TapePlace::Before,
            spans: 0,
            heard: 0,
            bridged: 0,
        }
    }

    /// Takes the next frame, and gives the span that ends before it, and the gap before the span that
    /// begins with it.
    pub fn frame(&mut self, frame: &Frame) -> Cut
        requires tick { FitsTick frame.now }
        requires room { frames_taken self.old < 2 ^ 40 - 1 }
        ensures cut { result ≡ cut_by self.old frame.now }
        ensures next { self.new ≡ after_frame self.old frame.now }
        ensures taken { frames_taken self.new ≤ frames_taken self.old + 1 }
        ensures fits { FitsCut result }

        // What it means for the lines of the frames so far.
        ensures stands { (frames : List Frame) → StandsFor self.old frames
            → StandsFor self.new (frames ++ frame.now ∷ []) }
        ensures lines { (frames : List Frame) (tick_rate : ℕ) (system : System) → StandsFor self.old frames
            → final_lines tick_rate system (frames ++ frame.now ∷ [])
            ≡ final_lines tick_rate system frames ++ cut_lines tick_rate system result }
    {
        self.take(frame)
    }

    /// Takes the next frame.
    fn take(&mut self, frame: &Frame) -> Cut
        requires tick { FitsTick frame.now }
        requires room { frames_taken self.old < 2 ^ 40 - 1 }
        ensures cut { result ≡ cut_by self.old frame.now }
        ensures next { self.new ≡ after_frame self.old frame.now }
        ensures taken { frames_taken self.new ≤ frames_taken self.old + 1 }
        ensures fits { FitsCut result }
    {
        match *frame {
            Frame::Heard {
                label,
                direction,
                joined,
                tick,
            } => {
                let mark = Mark {
                    label,
                    direction,
                    tick,
                };
                if joined {
                    self.join(mark);
                    NO_CUT
                } else {
                    self.begin(mark)
                }
            }
            Frame::Invented { .. } => {
                self.invent();
                NO_CUT
            }
            Frame::Gone { .. } => {
                let ended = self.end();
                Cut { ended, gap: None }
            }
        }
    }

    /// A frame that joins the open span.
    fn join(&mut self, mark: Mark)
        requires tick { mark.tick < 2 ^ 60 }
        requires room { frames_taken self.old < 2 ^ 40 - 1 }
        ensures { self.new ≡ joined_at self.old self.old.place mark }
    {
        if let TapePlace::Within(current) = self.place {
            self.place = TapePlace::Within(current.join(mark));
        }
    }

    /// A frame that is invented in the open span.
    fn invent(&mut self)
        requires room { frames_taken self.old < 2 ^ 40 - 1 }
        ensures { self.new ≡ invented_at self.old self.old.place }
    {
        if let TapePlace::Within(current) = self.place {
            self.place = TapePlace::Within(current.invent());
        }
    }

    /// Ends the open span.
    fn end(&mut self) -> Option<Span>
        requires room { frames_taken self.old < 2 ^ 40 - 1 }
        ensures span { result ≡ ended_at self.old.place }
        ensures next { self.new ≡ counted self.old }
        ensures taken { frames_taken self.new ≤ frames_taken self.old }
        ensures fits { IfSome result FitsSpan }
    {
        let TapePlace::Within(current) = self.place else {
            return None;
        };
        let span = current.span;
        self.spans += 1;
        self.heard += span.heard;
        self.bridged += span.bridged;
        self.place = TapePlace::Behind(span.last);
        Some(span)
    }

    /// Ends the open span, and begins another.
    fn begin(&mut self, mark: Mark) -> Cut
        requires tick { mark.tick < 2 ^ 60 }
        requires room { frames_taken self.old < 2 ^ 40 - 1 }
        ensures ended { result.ended ≡ ended_at self.old.place }
        ensures gap { result.gap ≡ gap_at self.old.place mark }
        ensures next { self.new ≡ begun_in self.old self.old.place mark }
        ensures taken { frames_taken self.new ≤ frames_taken self.old + 1 }
        ensures fits { FitsCut result }
    {
        let gap = self.place.gap_to(&mark);
        let ended = self.end();
        self.place = TapePlace::Within(OpenSpan::begin(mark));
        Cut { ended, gap }
    }

    /// The span that is open, up to the frame heard last.
    pub fn current(&self) -> Option<Span>
        requires room { frames_taken self.now < 2 ^ 40 }
        ensures value { result ≡ ended_at self.now.place }
        ensures fits { IfSome result FitsSpan }
        ensures line { (frames : List Frame) (tick_rate : ℕ) (system : System) → StandsFor self.now frames
            → open_line tick_rate system frames ≡ ended_lines tick_rate system result }
    {
        self.place.ended()
    }

    /// The spans and their frames, the open one counted too.
    fn counts(&self) -> Counts
        requires room { frames_taken self.now < 2 ^ 40 }
        ensures spans { result.spans ≡ (counted self.now).spans }
        ensures heard { result.heard ≡ (counted self.now).heard }
        ensures bridged { result.bridged ≡ (counted self.now).bridged }
        ensures most { (result.spans < 2 ^ 40) × (result.heard < 2 ^ 40) × (result.bridged < 2 ^ 40) }
    {
        let TapePlace::Within(current) = self.place else {
            return Counts {
                spans: self.spans,
                heard: self.heard,
                bridged: self.bridged,
            };
        };
        Counts {
            spans: self.spans + 1,
            heard: self.heard + current.span.heard,
            bridged: self.bridged + current.span.bridged,
        }
    }

    /// The line that counts the spans, the open one too, and the frames that were heard and bridged in
    /// them; with the intervals of the recording and their sum in ticks.
    pub fn end_text(&self, intervals: u64, ticks: u64) -> Text
        requires room { frames_taken self.now < 2 ^ 40 }
        requires intervals { intervals < 2 ^ 40 }
        requires ticks { ticks < 2 ^ 60 }
        ensures { (frames : List Frame) → StandsFor self.now frames
            → result.items ≡ last_spans_line intervals (spans frames) ticks }
    {
        let counts = self.counts();
        spans_end_text(intervals, counts.spans, counts.heard, counts.bridged, ticks)
    }
}
