//! The engine of `ltc-read`: intervals become events, and events become lines. Read next:
//! `direction_reader/src/reader.rt`, and `report_text/src/event.rt` for the lines.
ghost use Rattle.std.specs.Prelude.{◌≡◌, ◌≤◌, ◌<◌, ◌+◌, ◌*◌, List, ◌∷◌, ◌++◌, [], ℕ, IfSome};
ghost use Rattle.limits.specs.declared.recording.TheConstants.{MAX_INTERVAL, MAX_INTERVALS};
ghost use Rattle.direction_reader.specs.declared.event.Event.{Event};
ghost use Rattle.direction_reader.specs.declared.event.Events.{Events};
ghost use Rattle.direction_reader.specs.Events.{event_list, listed};
ghost use Rattle.direction_reader.specs.Reader.{Takes};
ghost use Rattle.direction_reader.specs.StandsFor.{MayTell, Tells};
ghost use Rattle.interval_file.specs.declared.header.IntervalHeader.{IntervalHeader};
ghost use Rattle.interval_file.specs.IntervalHeader.{IsTickRate};
ghost use Rattle.report_text.specs.Texts.{event_line, read_end_line, FitsLine};
ghost use Rattle.interval_commands.specs.LtcRead.{lines, report};
ghost use Rattle.interval_commands.specs.KeptReport.{counted, all_counted, Counts, Feeds, FitLines, FitsReport, Stands};

use crate::laws::what_is_printed_is_in_order;
use biphase::Profile;
use direction_reader::laws::{
    a_list_has_one_list_of_events, a_reader_gives_the_events_of_its_list,
    events_find_the_tape_again, events_find_the_tape_behind_even_ones, events_mirror_the_tape,
    events_tell_the_tape,
};
use direction_reader::{Brought, DirectionReader, Event, Events};
use interval_engine::{Behind, work_along};
use interval_file::IntervalHeader;
use interval_file::laws::recordings_grow;
use limits::{MAX_INTERVAL, MAX_INTERVALS};
use line_text::Text;
use report_text::{event_text, read_end_text};
use tc_command::{Command, Output, Stop, Way};

/// `ltc-read`, and under the other tolerances its like: a line for each event of a recording, and the last line.
#[derive(Clone, Copy)]
pub struct LtcRead {
    pub profile: Profile,
}

impl Command for LtcRead {
    ghost use Rattle.interval_commands.specs.Tape.{told_ltc_read};

    ghost told = { λ command. told_ltc_read command.profile };

    fn work<W: Way>(&self, way: &mut W) -> Result<(), Stop> {
        work_along::<Report, W>(self.profile, way)
    }

    fn keeps_its_promise(&self) {
        events_tell_the_tape();
        events_find_the_tape_again();
        events_find_the_tape_behind_even_ones();
        events_mirror_the_tape();
    }

    fn is_lawful() {
        recordings_grow();
        what_is_printed_is_in_order();
        a_list_has_one_list_of_events();
    }
}

/// The report of a recording: its header, its reader, and how many events of each kind were printed.
#[derive(Drop)]
struct Report {
    header: IntervalHeader,
    reader: DirectionReader,
    words: u64,
    refused: u64,
    lost: u64,
}

impl Report {
    /// Takes an interval, of `x` ticks, and writes the lines of what it brought.
    #[inline(always)]
    fn feed<O: Output>(&mut self, x: u32, out: &mut O)
        requires least { 1 ≤ x }
        requires most { x ≤ MAX_INTERVAL }
        requires room { self.old.reader.intervals < MAX_INTERVALS }
        requires fits { FitsReport self.old }
        ensures fits { FitsReport self.new }
        ensures takes { Takes self.old.reader x self.new.reader }
        ensures header { self.new.header ≡ self.old.header }
        ensures prints { (own : Events) × Feeds self.old self.new x own × Counts self.old self.new (event_list own)
            × O.given out.old out.new (lines self.old.header (event_list own)) }
    {
        match self.reader.step(x) {
            Brought::Nothing => (),
            brought => self.print(brought, out),
        }
    }

    /// Prints what the latest interval brought. Nearly every interval brings nothing.
    #[cold]
    #[inline(never)]
    fn print<O: Output>(&mut self, brought: Brought, out: &mut O)
        requires taken { 1 ≤ self.old.reader.intervals }
        requires within { self.old.reader.intervals ≤ MAX_INTERVALS }
        requires sum { self.old.reader.tick ≤ self.old.reader.intervals * MAX_INTERVAL }
        requires may { MayTell self.old.reader brought }
        requires header { IsTickRate self.old.header.tick_rate }
        requires events { self.old.words + self.old.refused + self.old.lost + 2 ≤ 2 * self.old.reader.intervals }
        ensures fits { FitsReport self.new }
        ensures reader { self.new.reader ≡ self.old.reader }
        ensures header { self.new.header ≡ self.old.header }
        ensures prints { (own : Events) × Tells self.old.reader brought own × Counts self.old self.new (event_list own)
            × O.given out.old out.new (lines self.old.header (event_list own)) }
    {
        let events = self.reader.events(brought);
        self.write(events, out);
    }

    /// Counts the events of an interval, and writes their lines.
    fn write<O: Output>(&mut self, events: Events, out: &mut O)
        requires lines { FitLines events }
        requires header { IsTickRate self.old.header.tick_rate }
        requires room { self.old.words + self.old.refused + self.old.lost ≤ 2 * MAX_INTERVALS }
        ensures counted { self.new ≡ all_counted (event_list events) self.old }
        ensures reader { self.new.reader ≡ self.old.reader }
        ensures header { self.new.header ≡ self.old.header }
        ensures lines { O.given out.old out.new (lines self.old.header (event_list events)) }
    {
        self.write_one(&events.first, out);
        self.write_one(&events.second, out);
    }

    /// Counts an event and writes its line, if there is one.
    fn write_one<O: Output>(&mut self, event: &Option<Event>, out: &mut O)
        requires line { IfSome event.now FitsLine }
        requires header { IsTickRate self.old.header.tick_rate }
        requires room { self.old.words + self.old.refused + self.old.lost ≤ 2 * MAX_INTERVALS + 1 }
        ensures counted { self.new ≡ all_counted (listed event.now) self.old }
        ensures reader { self.new.reader ≡ self.old.reader }
        ensures header { self.new.header ≡ self.old.header }
        ensures line { O.given out.old out.new (lines self.old.header (listed event.now)) }
    {
        if let Some(event) = event {
            self.count(event);
            out.write(&event_text(event, &self.header));
        }
    }

    /// Counts an event.
    fn count(&mut self, event: &Event)
        requires { self.old.words + self.old.refused + self.old.lost ≤ 2 * MAX_INTERVALS + 1 }
        ensures { self.new ≡ counted event.now self.old }
    {
        match event {
            Event::Word { .. } => self.words += 1,
            Event::Refused { .. } => self.refused += 1,
            Event::Lost { .. } => self.lost += 1,
        }
    }

    /// The last line of the report.
    fn end_text(&self) -> Text
        requires { FitsReport self.now }
        ensures { result.items ≡ read_end_line
            self.now.reader.intervals self.now.words self.now.refused self.now.lost self.now.reader.tick }
    {
        read_end_text(
            self.reader.intervals(),
            self.words,
            self.refused,
            self.lost,
            self.reader.tick(),
        )
    }
}

impl Behind for Report {
    ghost use Rattle.interval_commands.specs.LtcRead.{report};
    ghost use Rattle.interval_commands.specs.KeptReport.{FitsReport, Stands, stands_well};

    type Choice = Profile;

    ghost printing = { λ profile. report profile };

    ghost fits = { λ r count. FitsReport r × (r.reader.intervals ≡ count) };

    ghost stands = { λ r profile header intervals written. Stands r profile header intervals written };

    ghost stands_well = { λ r profile header intervals written stands.
        stands_well r profile header intervals written stands };

    fn begin<O: Output>(profile: Profile, header: IntervalHeader, _out: &mut O) -> Report {
        a_reader_gives_the_events_of_its_list();
        Report {
            header,
            reader: DirectionReader::new(header.system, profile),
            words: 0,
            refused: 0,
            lost: 0,
        }
    }

    #[inline(always)]
    fn interval<O: Output>(&mut self, x: u32, out: &mut O) {
        a_reader_gives_the_events_of_its_list();
        self.feed(x, out);
    }

    /// It has no limit of its own.
    #[inline(always)]
    fn is_spent(&self) -> bool {
        false
    }

    fn finish<O: Output>(&mut self, out: &mut O) {
        out.write(&self.end_text());
    }
}
