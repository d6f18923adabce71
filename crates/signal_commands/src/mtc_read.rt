//! The engine of `mtc-read`: a line of each event of MIDI bytes. Read next: `mtc_reader/src/reader.rt`, and
//! then `mtc_reader/src/texts.rt`.
ghost use Rattle.std.specs.Prelude.{◌≡◌, ◌≤◌, ◌<◌, ◌+◌, ◌++◌, ℕ, List, [], length, take};
ghost use Rattle.mtc_reader.specs.declared.event.MtcEvent.{MtcEvent};
ghost use Rattle.mtc_reader.specs.Events.{events_in};
ghost use Rattle.mtc_reader.specs.StandsFor as reads;
ghost use Rattle.mtc_reader.specs.StandsFor.{events_of};
ghost use Rattle.mtc_reader.specs.Texts.{event_line};
ghost use Rattle.signal_commands.specs.KeptMtc.{counted, FitsReport, Stands};
ghost use Rattle.signal_commands.specs.MtcRead.{along_midi};

use crate::laws::each_signal_makes_a_command;
use line_text::Text;
use mtc_reader::laws::{
    a_run_is_read_back, bytes_are_one_list_of_messages, earlier_events_stay,
    messages_carry_the_events, real_time_bytes_change_places_only,
};
use mtc_reader::{MtcEvent, MtcReader, mtc_end_text, push_mtc_text};
use tc_command::{Command, Engine, Halt, InputFault, Output, Stop, Way};

/// How many bytes are read, at most.
pub const MAX_BYTES: u64 = 1_000_000_000;

/// `mtc-read`: a line for each label of MIDI Time Code in MIDI bytes, and the last line.
#[derive(Clone, Copy)]
pub struct MtcRead;

impl Command for MtcRead {
    ghost use Rattle.signal_commands.specs.MtcRead.{told_mtc_read};

    ghost told = { λ command. told_mtc_read };

    fn work<W: Way>(&self, way: &mut W) -> Result<(), Stop> {
        way.read(&[], &mut MtcReport::new())
    }

    /// What was sent is what is read, and nothing else is.
    fn keeps_its_promise(&self) {
        earlier_events_stay();
        a_run_is_read_back();
        real_time_bytes_change_places_only();
        bytes_are_one_list_of_messages();
        messages_carry_the_events();
    }

    fn is_lawful() {
        each_signal_makes_a_command();
    }
}

/// A reader of MIDI bytes, and how many of its events of each kind were printed.
#[derive(Drop)]
struct MtcReport {
    reader: MtcReader,
    full: u64,
    quarter: u64,
    refused: u64,
}

impl MtcReport {
    /// Before the first byte.
    fn new() -> MtcReport
        ensures fits { FitsReport result }
        ensures stands { Stands result [] [] }
    {
        MtcReport {
            reader: MtcReader::new(),
            full: 0,
            quarter: 0,
            refused: 0,
        }
    }

    /// Takes bytes up to the one with which an event is complete, and all that may be taken if none is. It
    /// answers how many these are, and the event.
    fn read(&mut self, bytes: &[u8]) -> (usize, Option<MtcEvent>)
        requires some { 0 < length bytes.now }
        requires within { self.old.reader.bytes < MAX_BYTES }
        ensures least { 1 ≤ result.0 }
        ensures most { result.0 ≤ length bytes.now }
        ensures count { self.new.reader.bytes ≡ self.old.reader.bytes + result.0 }
        ensures within { self.new.reader.bytes ≤ MAX_BYTES }
        ensures kept { self.new ≡ record self.old { reader = self.new.reader } }
        ensures stands { (front : List ℕ) → reads.StandsFor self.old.reader front
            → reads.StandsFor self.new.reader (front ++ take result.0 bytes.now) }
        ensures gives { (front : List ℕ) → reads.StandsFor self.old.reader front
            → events_in (front ++ take result.0 bytes.now) ≡ events_in front ++ events_of result.1 }
    {
        let room = (MAX_BYTES - self.reader.bytes()) as usize;
        self.reader.take(&bytes[..bytes.len().min(room)])
    }

    /// Counts an event, and writes its line.
    fn print<O: Output>(&mut self, event: &MtcEvent, out: &mut O)
        requires { self.old.full + self.old.quarter + self.old.refused < MAX_BYTES }
        ensures counted { self.new ≡ counted event.now self.old }
        ensures reader { self.new.reader ≡ self.old.reader }
        ensures line { O.given out.old out.new (event_line event.now) }
    {
        match event {
            MtcEvent::Full { .. } => self.full += 1,
            MtcEvent::Quarter { .. } => self.quarter += 1,
            MtcEvent::RefusedFull { .. } => self.refused += 1,
            MtcEvent::RefusedQuarter { .. } => self.refused += 1,
        }
        let mut line = Text::new();
        push_mtc_text(&mut line, event);
        out.write(&line);
    }
}

impl Engine for MtcReport {
    ghost use Rattle.std.specs.Prelude.{◌-◌};
    ghost use Rattle.signal_commands.specs.KeptMtc.{FitsReport, Stands, stands_well};
    ghost use Rattle.signal_commands.specs.MtcRead.{along_midi};
    ghost use Rattle.signal_commands.specs.declared.mtc_read.TheConstants.{MAX_BYTES};

    type Choice = ();

    ghost meaning = { λ choice. along_midi };

    ghost choice = { λ s. tt };

    ghost is_going = { λ s. FitsReport s };

    ghost stands = { λ s bytes written. Stands s bytes written };

    ghost budget = { λ s. MAX_BYTES - s.reader.bytes };

    ghost is_short = { λ s bytes. ⊥ };

    ghost stands_well = { λ s bytes written stands. stands_well s bytes written stands };

    fn take<O: Output>(&mut self, bytes: &[u8], out: &mut O) -> Result<usize, Halt> {
        if self.reader.bytes() == MAX_BYTES {
            return Err(Halt::Limit);
        }
        let (count, event) = self.read(bytes);
        if let Some(event) = event {
            self.print(&event, out);
        }
        Ok(count)
    }

    fn cut_off(&self, _bytes: &[u8]) -> Option<InputFault> {
        None
    }

    fn finish<O: Output>(&mut self, out: &mut O) -> Result<(), InputFault> {
        let bytes = self.reader.bytes();
        out.write(&mtc_end_text(bytes, self.full, self.quarter, self.refused));
        Ok(())
    }
}
