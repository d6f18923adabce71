//! The way along the frames of a recording, the same for each command that makes something of them: words
//! become frames, and these go to the command's sink. Read next: `hearing`, then `frames`, and with the frames
//! `frame_sink`.
ghost use Rattle.std.specs.Prelude.{◌≡◌, ◌≤◌, ◌<◌, ◌^◌, ℕ, List, [], ◌∷◌, ◌++◌, IfSome, None, All, length};
ghost use Rattle.direction_reader.specs.declared.event.Event.{Event};
ghost use Rattle.flywheel.specs.declared.frame.Frame.{Frame};
ghost use Rattle.flywheel.specs.Wheel.{IsInRange};
ghost use Rattle.limits.specs.declared.recording.TheConstants.{MAX_INTERVAL, MAX_INTERVALS};
ghost use Rattle.frame_commands.specs.Hearing.{Hearer, HearsOn};
ghost use Rattle.frame_commands.specs.KeptFlight.{
  frames_counted,
  Counts,
  FitsSink,
  GivesAll,
  GivesDue,
  HeardBy,
  IsReady,
  Sends,
  TakesTurns,
};
ghost use Rattle.frame_commands.specs.OfFrames.{along_frames};
ghost use Rattle.interval_engine.specs.Along.{along_intervals};

use crate::frame_sink::FrameSink;
use crate::frames::Frames;
use crate::hearing::{Hearing, step_aside};
use crate::laws::what_is_heard_is_in_order;
use direction_reader::{ConsecutiveReader, CountedReader, DirectionReader, FirmReader};
use interval_engine::{Behind, work_along};
use interval_file::IntervalHeader;
use tc_command::{Output, Stop, Way};
use tc_job::Witness;

/// Works a command along the frames of a recording, which are those of the words that its witness lets through.
pub(crate) fn work_frames<T: FrameSink, W: Way>(choice: T::Choice, way: &mut W) -> Result<(), Stop>
    ensures { W.worked (along_intervals (along_frames (T.flight choice) (T.made choice))) way.old way.new result }
{
    match T::flight(choice).witness {
        Witness::NotAsked => work_along::<FlightTo<DirectionReader, T>, W>(choice, way),
        Witness::Asked => work_along::<FlightTo<FirmReader, T>, W>(choice, way),
        Witness::Consecutive => work_along::<FlightTo<ConsecutiveReader, T>, W>(choice, way),
        Witness::Counted => work_along::<FlightTo<CountedReader, T>, W>(choice, way),
    }
}

/// What a command makes of the frames of a recording, along its intervals.
#[derive(Drop)]
pub(crate) struct FlightTo<R: Hearing, T: FrameSink> {
    reader: R,
    frames: Frames,
    sink: T,
}

impl<R: Hearing, T: FrameSink> FlightTo<R, T> {
    /// Takes an interval of `x` ticks, and answers what it brought; for one that brought nothing and with which no
    /// frame is due, nothing. Nearly all are so.
    // Whether a frame is due at the end of the interval is tested first, while that tick is at hand: 3 of 64
    // instructions an interval in `ltc-fly`.
    #[inline(always)]
    fn hear(&mut self, x: u32) -> Option<R::Brought>
        requires least { 1 ≤ x }
        requires most { x ≤ MAX_INTERVAL }
        requires room { Hearer.count (R.hearer self.old.reader) < MAX_INTERVALS }
        requires heard_by { HeardBy (Hearer.until (R.hearer self.old.reader)) self.old.frames.wheel }
        ensures frames { self.new.frames ≡ self.old.frames }
        ensures sink { self.new.sink ≡ self.old.sink }
        ensures next { HearsOn (R.hearer self.old.reader) x (R.hearer self.new.reader) }
        ensures later { Hearer.until (R.hearer self.old.reader) ≤ Hearer.until (R.hearer self.new.reader) }
        ensures may { IfSome result
            (λ brought. R.may self.new.reader brought (Hearer.until (R.hearer self.old.reader))) }
        ensures stands { IfSome result (λ brought. (intervals : List ℕ) (events own : List Event)
            → Hearer.stands (R.hearer self.old.reader) intervals events → R.tells self.new.reader brought own
            → Hearer.stands (R.hearer self.new.reader) (intervals ++ x ∷ []) (events ++ own)) }
        ensures nothing { result ≡ None → (intervals : List ℕ) (events : List Event)
            → Hearer.stands (R.hearer self.old.reader) intervals events
            → Hearer.stands (R.hearer self.new.reader) (intervals ++ x ∷ []) (events ++ []) }
        ensures quiet { result ≡ None → GivesDue self.old.frames.wheel self.old.frames.wheel
            (Hearer.until (R.hearer self.new.reader)) [] }
        ensures below { result ≡ None → Hearer.until (R.hearer self.new.reader) < 2 ^ 60 }
    {
        if !self.frames.is_quiet(self.reader.tick_after(x)) {
            return Some(step_aside(&mut self.reader, x));
        }
        let brought = self.reader.step(x);
        if R::is_nothing(&brought) {
            None
        } else {
            Some(brought)
        }
    }

    /// Gives the sink the frames of the words that wait, up to a tick. Nearly every interval brings none.
    #[cold]
    #[inline(never)]
    fn give<O: Output>(&mut self, until: u64, out: &mut O)
        requires ready { (most : ℕ) × IsReady self.old.frames most until }
        requires room { T.taken self.old.sink ≤ frames_counted self.old.frames }
        requires few { length self.old.frames.words ≤ 2 }
        requires range { All IsInRange self.old.frames.words }
        requires turns { TakesTurns self.old.frames until }
        ensures reader { self.new.reader ≡ self.old.reader }
        ensures limit { self.new.frames.wheel.limit ≡ self.old.frames.wheel.limit }
        ensures fits { (most : ℕ) → IsReady self.old.frames most until
            → FitsSink self.new.frames (T.taken self.new.sink) most until }
        ensures gives { (more : List Frame) × Counts self.old.frames self.new.frames more
            × Sends T.made T.given O.given self.old.sink self.new.sink out.old out.new more
            × GivesAll self.old.frames.wheel self.new.frames.wheel until self.old.frames.words more }
    {
        while let Some(frame) = self.frames.next(until) {
            self.sink.frame(&frame, out);
        }
    }
}

impl<R: Hearing, T: FrameSink> Behind for FlightTo<R, T> {
    ghost use Rattle.frame_commands.specs.KeptFlight.{FitsHearing, Stands, stands_well};
    ghost use Rattle.frame_commands.specs.OfFrames.{along_frames_with};

    type Choice = T::Choice;

    ghost printing = { λ choice. along_frames_with R.witness (T.flight choice) (T.made choice) };

    ghost fits = { λ s count. FitsHearing (R.hearer s.reader) s.frames (T.taken s.sink) count };

    ghost stands = { λ s choice header intervals written.
        Stands R.witness T.flight T.made T.given (R.hearer s.reader) s.frames s.sink choice header intervals written };

    ghost stands_well = { λ s choice header intervals written stands.
        stands_well R.witness T.flight T.made T.given (R.hearer s.reader) s.frames s.sink choice header intervals
        written stands };

    fn begin<O: Output>(choice: T::Choice, header: IntervalHeader, out: &mut O) -> FlightTo<R, T> {
        R::what_is_told_is_heard();
        let flight = T::flight(choice);
        let reader = R::start(header.system, flight.profile);
        let frames = Frames::new(flight.limit);
        let sink = T::begin(choice, &header, out);
        FlightTo {
            reader,
            frames,
            sink,
        }
    }

    #[inline(always)]
    fn interval<O: Output>(&mut self, x: u32, out: &mut O) {
        R::what_is_told_is_heard();
        if let Some(brought) = self.hear(x) {
            let until = self.reader.until();
            self.reader.words(brought, &mut self.frames.words);
            self.give(until, out);
        }
    }

    /// Its frames pass the limit of their sink.
    #[inline(always)]
    fn is_spent(&self) -> bool {
        what_is_heard_is_in_order();
        self.sink.is_spent()
    }

    /// The frames of the words that waited, and then what comes last.
    fn finish<O: Output>(&mut self, out: &mut O) {
        R::what_is_told_is_heard();
        let ticks = self.reader.ticks();
        self.frames.words = self.reader.last_words();
        self.give(ticks, out);
        self.sink
            .finish(&self.frames, self.reader.intervals(), ticks, out);
    }
}
