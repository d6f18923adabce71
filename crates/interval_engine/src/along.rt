//! The way along an interval file, the same for each command that reads one. Read next:
//! `interval_file/src/piece.rt`.
ghost use Rattle.std.specs.Prelude.{◌≡◌, ℕ, true, false, ◌+◌, ◌-◌, ◌*◌, ◌<◌, ◌≤◌, List, [], ◌∷◌, ◌++◌, length, take};
ghost use Rattle.std.specs.Prelude.{IfOk, IfErr};
ghost use Rattle.limits.specs.declared.recording.TheConstants.{MAX_INTERVAL, MAX_INTERVALS};
ghost use Rattle.interval_file.specs.declared.header.IntervalHeader.{IntervalHeader};
ghost use Rattle.interval_file.specs.declared.fault.IntervalFileFault.TheVariants.{Truncated};
ghost use Rattle.interval_file.specs.Grammar.{IsFile};
ghost use Rattle.interval_file.specs.IntervalHeader.{IsTickRate};
ghost use Rattle.interval_file.specs.Piece.{most_width};
ghost use Rattle.tc_command.specs.declared.input_fault.InputFault.TheVariants.{Intervals};
ghost use Rattle.tc_command.specs.Halt.{IsHalt as IsHaltOf};
ghost use Rattle.tc_command.specs.KeptBrings.{Brings};
ghost use Rattle.interval_engine.specs.Along.{Printing, along_intervals};
ghost use Rattle.interval_engine.specs.KeptAlong.{
  Advances,
  IsGoing,
  IsHalt,
  IsWithin,
  Stands,
  StandsWithin,
};

use interval_file::laws::{bytes_are_read_as_the_text_says, recordings_grow};
use interval_file::{
    FileVersion, HEADER_LENGTH, IntervalFileFault, IntervalHeader, Next, front_header, most_width,
    next_interval,
};
use limits::{MAX_INTERVAL, MAX_INTERVALS};
use tc_command::{Engine, Halt, InputFault, Output, Stop, Way};

/// The work of one command behind the header of an interval file.
pub trait Behind: Drop {
    /// What the words choose for it.
    type Choice: Copy;

    /// What it writes.
    ghost printing: { Self.Choice → Printing };

    /// What it keeps fits the number of intervals that it was given.
    ghost fits: { Self → ℕ → Type 0 };

    /// It was begun with this choice and this header, was given these intervals, and wrote this.
    ghost stands: { Self → Self.Choice → IntervalHeader → List ℕ → List ℕ → Type 0 };

    /// What it wrote is the part of the intervals.
    ghost stands_well: { (behind : Self) (choice : Self.Choice) (header : IntervalHeader) (intervals written : List ℕ)
        → stands behind choice header intervals written
        → Printing.part (printing choice) header intervals written };

    /// Takes the header, and writes what comes first.
    fn begin<O: Output>(choice: Self::Choice, header: IntervalHeader, out: &mut O) -> Self
        requires { IsTickRate header.tick_rate }
        ensures fits { fits result 0 }
        ensures begins { (written : List ℕ) × O.given out.old out.new written × stands result choice header [] written };

    /// Takes an interval, of `x` ticks, and writes what it brings.
    fn interval<O: Output>(&mut self, x: u32, out: &mut O)
        requires least { 1 ≤ x }
        requires most { x ≤ MAX_INTERVAL }
        requires fits { (count : ℕ) × (count < MAX_INTERVALS) × fits self.old count }
        ensures fits { (count : ℕ) → fits self.old count → fits self.new (count + 1) }
        ensures works { (choice : Self.Choice) (header : IntervalHeader) (intervals written : List ℕ)
            → stands self.old choice header intervals written
            → (more : List ℕ) × O.given out.old out.new more
            × stands self.new choice header (intervals ++ x ∷ []) (written ++ more) };

    /// Whether the intervals that it was given pass a limit of the command's own.
    fn is_spent(&self) -> bool
        ensures spent { result ≡ true → (choice : Self.Choice) (header : IntervalHeader) (intervals written : List ℕ)
            → stands self.now choice header intervals written → Printing.spent (printing choice) header intervals }
        ensures going { result ≡ false → (choice : Self.Choice) (header : IntervalHeader) (intervals written : List ℕ)
            → stands self.now choice header intervals written → ¬ Printing.spent (printing choice) header intervals };

    /// Takes the end of the recording, and writes what comes last.
    fn finish<O: Output>(&mut self, out: &mut O)
        requires { (count : ℕ) × (count ≤ MAX_INTERVALS) × fits self.old count }
        ensures { (choice : Self.Choice) (header : IntervalHeader) (intervals written : List ℕ)
            → stands self.old choice header intervals written
            → (more : List ℕ) × O.given out.old out.new more
            × Printing.whole (printing choice) header intervals (written ++ more) };
}

/// Works a command along an interval file, as what its choice prints.
pub fn work_along<B: Behind, W: Way>(choice: B::Choice, way: &mut W) -> Result<(), Stop>
    ensures { W.worked (along_intervals (B.printing choice)) way.old way.new result }
{
    way.read(&[], &mut Along::<B>::new(choice))
}

/// A command along an interval file.
#[derive(Drop)]
struct Along<B: Behind> {
    choice: B::Choice,
    begun: Option<Begun<B>>,
}

impl<B: Behind> Along<B> {
    /// A command with this choice, before the first byte.
    fn new(choice: B::Choice) -> Along<B>
        ensures choice { result.choice ≡ choice }
        ensures begun { result.begun ≡ None }
    {
        Along {
            choice,
            begun: None,
        }
    }
}

/// What is kept behind the header: how many bytes were taken, and how many intervals.
#[derive(Drop)]
struct Begun<B: Behind> {
    version: FileVersion,
    taken: u64,
    intervals: u64,
    behind: B,
}

impl<B: Behind> Begun<B> {
    /// Takes the header, whose bytes these are.
    fn new<O: Output>(choice: B::Choice, header: IntervalHeader, out: &mut O) -> Begun<B>
        requires { IsTickRate header.tick_rate }
        ensures going { IsGoing B.fits result.behind result.taken result.intervals }
        ensures none { result.intervals ≡ 0 }
        ensures begins { (bytes : List ℕ) → IsFile bytes header [] → length bytes ≡ HEADER_LENGTH
            → (written : List ℕ) × O.given out.old out.new written
            × Stands B.stands result.version result.behind result.taken result.intervals choice bytes written }
    {
        bytes_are_read_as_the_text_says();
        Begun {
            version: header.version,
            taken: HEADER_LENGTH,
            intervals: 0,
            behind: B::begin(choice, header, out),
        }
    }

    /// Works on the whole intervals at the front of bytes, and answers how many bytes they have. A limit of the
    /// command's own comes before a fault of the file and before the file's limit.
    fn take<O: Output>(&mut self, bytes: &[u8], out: &mut O) -> Result<usize, Halt>
        requires going { IsGoing B.fits self.old.behind self.old.taken self.old.intervals }
        requires some { 0 < length bytes.now }
        ensures advances { IfOk result (λ count. Advances O.given B.fits B.stands
            self.old.version self.new.version self.old.behind self.new.behind self.old.taken self.new.taken
            self.old.intervals self.new.intervals out.old out.new bytes.now count) }
        ensures within { IfOk result (λ count. IsWithin B.printing B.stands self.new.behind) }
        ensures halts { IfErr result (λ halt. (choice : B.Choice) → Brings O.given
            (Stands B.stands self.old.version self.old.behind self.old.taken self.old.intervals choice)
            (IsHaltOf (along_intervals (B.printing choice)) halt) out.old out.new bytes.now) }
    {
        let taken = self.advance(bytes, out);
        if self.behind.is_spent() {
            return Err(Halt::Limit);
        }
        taken
    }

    /// The same, whatever limit the command has.
    // Out of line, so that what is kept is near a pointer of its own and not far up the stack of a long function:
    // the code of the loop over intervals is a tenth shorter so. An interval takes one or two instructions more,
    // and `ltc-fly` a sixth less time.
    #[inline(never)]
    fn advance<O: Output>(&mut self, bytes: &[u8], out: &mut O) -> Result<usize, Halt>
        requires going { IsGoing B.fits self.old.behind self.old.taken self.old.intervals }
        requires some { 0 < length bytes.now }
        ensures advances { IfOk result (λ count. Advances O.given B.fits B.stands
            self.old.version self.new.version self.old.behind self.new.behind self.old.taken self.new.taken
            self.old.intervals self.new.intervals out.old out.new bytes.now count) }
        ensures halts { IfErr result (λ halt. (choice : B.Choice) → Brings O.given
            (Stands B.stands self.old.version self.old.behind self.old.taken self.old.intervals choice)
            (IsHalt B.stands self.new.behind choice halt) out.old out.new bytes.now) }
    {
        // At the end of the bytes, and near the limit, each interval is looked at by itself.
        if bytes.len() < most_width(self.version)
            || MAX_INTERVALS - self.intervals < bytes.len() as u64
        {
            return self.one(bytes, out);
        }
        // Each version has a loop of its own, which knows how many bytes an interval has at most, and looks at
        // each through a window of that many.
        match self.version {
            FileVersion::One => self.run(FileVersion::One, bytes, out),
            FileVersion::Two => self.run(FileVersion::Two, bytes, out),
        }
    }

    /// Takes the interval at the front of bytes, if it is whole.
    fn one<O: Output>(&mut self, bytes: &[u8], out: &mut O) -> Result<usize, Halt>
        requires going { IsGoing B.fits self.old.behind self.old.taken self.old.intervals }
        requires some { 0 < length bytes.now }
        ensures advances { IfOk result (λ count. Advances O.given B.fits B.stands
            self.old.version self.new.version self.old.behind self.new.behind self.old.taken self.new.taken
            self.old.intervals self.new.intervals out.old out.new bytes.now count) }
        ensures halts { IfErr result (λ halt. (choice : B.Choice) → Brings O.given
            (Stands B.stands self.old.version self.old.behind self.old.taken self.old.intervals choice)
            (IsHalt B.stands self.new.behind choice halt) out.old out.new bytes.now) }
    {
        bytes_are_read_as_the_text_says();
        recordings_grow();
        match next_interval(self.version, self.taken, bytes) {
            Next::Short => Ok(0),
            Next::Interval { ticks, width } => {
                if self.intervals == MAX_INTERVALS {
                    return Err(Halt::Limit);
                }
                self.behind.interval(ticks, out);
                self.intervals += 1;
                self.taken += width as u64;
                Ok(width)
            }
            // An interval past the limit is not looked at.
            Next::Fault(fault) => {
                if self.intervals == MAX_INTERVALS {
                    return Err(Halt::Limit);
                }
                Err(Halt::Refused(InputFault::Intervals(fault)))
            }
        }
    }

    /// Works on the whole intervals at the front of bytes, as long as the widest one fits in what is left: one at least.
    /// The limit has room for an interval for each byte.
    #[inline(always)]
    fn run<O: Output>(
        &mut self,
        version: FileVersion,
        bytes: &[u8],
        out: &mut O,
    ) -> Result<usize, Halt>
        requires version { self.old.version ≡ version }
        requires room { self.old.intervals + length bytes.now ≤ MAX_INTERVALS }
        requires long { most_width version ≤ length bytes.now }
        requires going { IsGoing B.fits self.old.behind self.old.taken self.old.intervals }
        requires some { 0 < length bytes.now }
        ensures advances { IfOk result (λ count. Advances O.given B.fits B.stands
            self.old.version self.new.version self.old.behind self.new.behind self.old.taken self.new.taken
            self.old.intervals self.new.intervals out.old out.new bytes.now count) }
        ensures halts { IfErr result (λ halt. (choice : B.Choice) → Brings O.given
            (Stands B.stands self.old.version self.old.behind self.old.taken self.old.intervals choice)
            (IsHalt B.stands self.new.behind choice halt) out.old out.new bytes.now) }
    {
        bytes_are_read_as_the_text_says();
        recordings_grow();
        let first = self.taken;
        let widest = most_width(version);
        let end = bytes.len() - (widest - 1);
        let mut intervals = self.intervals;
        let mut at = 0;
        let behind = &mut self.behind;
        'run: while at < end {
            match next_interval(version, first + at as u64, &bytes[at..at + widest]) {
                Next::Interval { ticks, width } => {
                    behind.interval(ticks, out);
                    intervals += 1;
                    at += width;
                }
                Next::Fault(fault) => return Err(Halt::Refused(InputFault::Intervals(fault))),
                // The window holds any interval, so this does not come.
                Next::Short => unreachable!(),
            }
        }
        self.taken = first + at as u64;
        self.intervals = intervals;
        Ok(at)
    }
}

impl<B: Behind> Engine for Along<B> {
    ghost use Rattle.std.specs.Prelude.{◌+◌, ◌-◌, Some, None, IfSome, MatchOption};
    ghost use Rattle.limits.specs.declared.recording.TheConstants.{MAX_INTERVALS};
    ghost use Rattle.interval_engine.specs.Along.{along_intervals};
    ghost use Rattle.interval_engine.specs.KeptAlong.{
      HeaderIsShort,
      IsShort,
      IsGoing,
      StandsSoFar,
      StandsWithin,
      so_far_well,
      stands_well,
    };

    type Choice = B::Choice;

    ghost meaning = { λ choice. along_intervals (B.printing choice) };

    ghost choice = { λ s. s.choice };

    ghost is_going = { λ s. IfSome s.begun (λ b. IsGoing B.fits b.behind b.taken b.intervals) };

    ghost stands = { λ s. StandsSoFar (λ b bytes written. StandsWithin B.printing B.stands b.version b.behind b.taken
        b.intervals s.choice bytes written) s.begun };

    ghost budget = { λ s. elim s.begun [ None ↦ MAX_INTERVALS + 1 | Some b ↦ MAX_INTERVALS - b.intervals ] };

    ghost is_short = { λ s bytes. MatchOption s.begun (HeaderIsShort bytes) (λ b. IsShort b.version bytes) };

    ghost stands_well = { λ s bytes written stands. so_far_well (B.printing s.choice) _ (λ b.
        stands_well B.printing B.stands B.stands_well b.version b.behind b.taken b.intervals s.choice)
        s.begun bytes written stands };

    fn take<O: Output>(&mut self, bytes: &[u8], out: &mut O) -> Result<usize, Halt> {
        bytes_are_read_as_the_text_says();
        if let Some(begun) = &mut self.begun {
            return begun.take(bytes, out);
        }
        match front_header(bytes) {
            Ok(Some(header)) => {
                let begun = Begun::<B>::new(self.choice, header, out);
                if begun.behind.is_spent() {
                    return Err(Halt::Limit);
                }
                self.begun = Some(begun);
                Ok(HEADER_LENGTH as usize)
            }
            Ok(None) => Ok(0),
            Err(fault) => Err(Halt::Refused(InputFault::Intervals(fault))),
        }
    }

    fn cut_off(&self, bytes: &[u8]) -> Option<InputFault> {
        bytes_are_read_as_the_text_says();
        let more = bytes.len() as u64;
        match &self.begun {
            Some(begun) => Some(truncated(begun.taken + more)),
            None => Some(truncated(more)),
        }
    }

    fn finish<O: Output>(&mut self, out: &mut O) -> Result<(), InputFault> {
        bytes_are_read_as_the_text_says();
        match &mut self.begun {
            Some(begun) => {
                begun.behind.finish(out);
                Ok(())
            }
            None => Err(truncated(0)),
        }
    }
}

/// The fault of an input that is cut off at this place.
fn truncated(place: u64) -> InputFault
    ensures { result ≡ Intervals (Truncated place) }
{
    InputFault::Intervals(IntervalFileFault::Truncated(place))
}
