//! `ltc-load`: a recording made by chance, and read interval after interval as it is made. Read next: `chance`.
ghost use Rattle.std.specs.Prelude.{◌≡◌, ◌≤◌, ◌<◌, ◌+◌, ◌*◌, ◌/◌, ◌%◌, ◌^◌, ◌++◌, [], ◌∷◌, List, ℕ, decimal, fold};
ghost use Rattle.std.specs.Prelude.{length, Some};
ghost use Rattle.arrayvec.specs.ArrayVec.{array_vec_len};
ghost use Rattle.biphase.specs.Chain.{flat, intervals_of};
ghost use Rattle.limits.specs.declared.recording.TheConstants.{MAX_INTERVAL, MAX_INTERVALS};
ghost use Rattle.direction_reader.specs.declared.event.Events.{Events};
ghost use Rattle.direction_reader.specs.Events.{event_list, listed};
ghost use Rattle.direction_reader.specs.StandsFor.{MayTell, Tells};
ghost use Rattle.direction_reader.specs.Played.{low_bits};
ghost use Rattle.tc_address.specs.Label.{IsLabel};
ghost use Rattle.tc_address.specs.declared.count.Count.TheVariants.{C25};
ghost use Rattle.tc_bits.specs.Fields.{IsFields};
ghost use Rattle.interval_file.specs.Grammar.{AreIntervals};
ghost use Rattle.made_commands.specs.KeptDivisors.{AreFactors};
ghost use Rattle.made_commands.specs.KeptLoad.{FitsTally, HasRead, first_or, line_with, no_counts, total, with_event};
ghost use Rattle.made_commands.specs.Load.{IsAllRead, IsChance, behind, cells_by, first_label, label_text, load_text};
ghost use Rattle.made_commands.specs.Load.{load_word};

use crate::chance::Chance;
use crate::divisors::Divisors;
use biphase::{Cell, Profile};
use direction_reader::laws::{
    a_list_has_one_list_of_events, a_reader_gives_the_events_of_its_list, played_words_are_read,
};
use direction_reader::{Brought, DirectionReader, Event};
use limits::{MAX_INTERVAL, MAX_INTERVALS};
use line_text::{Text, push_any_number, push_bytes, push_number};
use ltc_jam::laws::steps_lead_to_labels;
use ltc_word::laws::each_word_has_its_spelling;
use ltc_word::{LtcWord, spelling};
use tc_address::{Count, Label, System, advance, day_labels, label_at, text};
use tc_bits::{Fields, Flags, UserBits};
use tc_command::{Command, Stop, Way};
use tc_job::LoadRun;

/// `ltc-load`: what was read of a recording that was made by chance.
#[derive(Clone, Copy)]
pub struct LtcLoad {
    pub run: LoadRun,
}

impl Command for LtcLoad {
    ghost use Rattle.made_commands.specs.Load.{told_ltc_load};

    ghost told = { λ command. told_ltc_load command.run };

    fn work<W: Way>(&self, way: &mut W) -> Result<(), Stop> {
        way.write(&load_text(&self.run))
    }

    fn keeps_its_promise(&self) {
        is_all_read(&self.run);
    }

    fn is_lawful() {}
}

/// How many events of each kind were read, and the labels of the first and the last word.
#[derive(Clone, Copy)]
pub(crate) struct Counts {
    words: u64,
    refused: u64,
    lost: u64,
    first: Option<Label>,
    last: Option<Label>,
}

impl Counts {
    /// One event more, if there is one.
    fn add(&mut self, event: Option<Event>)
        requires { total self.old < 2 ^ 40 }
        ensures counted { self.new ≡ fold with_event self.old (listed event) }
        ensures one { total self.new ≤ total self.old + 1 }
    {
        match event {
            Some(Event::Word { word, .. }) => self.add_word(word.fields.label()),
            Some(Event::Refused { .. }) => self.refused += 1,
            Some(Event::Lost { .. }) => self.lost += 1,
            None => (),
        }
    }

    /// A word of this label more.
    fn add_word(&mut self, label: Label)
        requires { self.old.words < 2 ^ 40 }
        ensures { self.new ≡ record self.old {
          words = self.old.words + 1;
          first = first_or self.old.first label;
          last = Some label;
        } }
    {
        self.words += 1;
        if self.first.is_none() {
            self.first = Some(label);
        }
        self.last = Some(label);
    }

    /// The line of a run with these counts.
    fn line(&self, run: &LoadRun) -> Text
        requires { total self.now < 100_000_000 }
        ensures { result.items ≡ line_with run.now self.now }
    {
        let mut line = Text::new();
        push_bytes(&mut line, b"load seed ");
        push_any_number(&mut line, run.seed());
        push_named(&mut line, b" words ", u64::from(run.words()));
        push_named(&mut line, b" read ", self.words);
        push_named(&mut line, b" refused ", self.refused);
        push_named(&mut line, b" lost ", self.lost);
        push_label(&mut line, b" first ", self.first);
        push_label(&mut line, b" last ", self.last);
        push_bytes(&mut line, b"\n");
        line
    }
}

/// Appends a name, and a number of at most eight digits.
#[tactic(auto, using(crate::proofs::Digits::digits_of_counts))]
fn push_named(line: &mut Text, name: &[u8], number: u64)
    requires few { number < 100_000_000 }
    requires room { array_vec_len line.old + length name.now + 8 ≤ 128 }
    ensures items { line.new.items ≡ line.old.items ++ name.now ++ decimal number }
    ensures len { array_vec_len line.new ≤ array_vec_len line.old + length name.now + 8 }
{
    push_bytes(line, name);
    push_number(line, number);
}

/// Appends a name, and the text of a label, or that there is none.
fn push_label(line: &mut Text, name: &[u8], label: Option<Label>)
    requires { array_vec_len line.old + length name.now + 11 ≤ 128 }
    ensures items { line.new.items ≡ line.old.items ++ name.now ++ label_text label }
    ensures len { array_vec_len line.new ≤ array_vec_len line.old + length name.now + 11 }
{
    push_bytes(line, name);
    match label {
        Some(label) => push_bytes(line, &text(&label)),
        None => push_bytes(line, b"-"),
    }
}

/// A reader, and what it read.
#[derive(Drop)]
pub(crate) struct Tally {
    reader: DirectionReader,
    counts: Counts,
}

impl Tally {
    /// Nothing was read.
    fn new() -> Tally
        ensures fits { FitsTally result }
        ensures none { result.reader.intervals ≡ 0 }
        ensures reads { HasRead result [] }
    {
        Tally {
            reader: DirectionReader::new(System::F25, Profile::Normal),
            counts: Counts {
                words: 0,
                refused: 0,
                lost: 0,
                first: None,
                last: None,
            },
        }
    }

    /// Reads an interval, of `x` ticks.
    #[inline(always)]
    fn interval(&mut self, x: u32)
        requires least { 1 ≤ x }
        requires most { x ≤ MAX_INTERVAL }
        requires room { self.old.reader.intervals < MAX_INTERVALS }
        requires fits { FitsTally self.old }
        ensures fits { FitsTally self.new }
        ensures count { self.new.reader.intervals ≡ self.old.reader.intervals + 1 }
        ensures reads { (intervals : List ℕ) → HasRead self.old intervals → HasRead self.new (intervals ++ x ∷ []) }
    {
        match self.reader.step(x) {
            Brought::Nothing => (),
            brought => self.count(brought),
        }
    }

    /// Counts what the latest interval brought: nearly every interval brings nothing.
    #[cold]
    #[inline(never)]
    fn count(&mut self, brought: Brought)
        requires taken { 1 ≤ self.old.reader.intervals }
        requires few { self.old.reader.intervals ≤ MAX_INTERVALS }
        requires may { MayTell self.old.reader brought }
        requires room { total self.old.counts + 2 ≤ 2 * self.old.reader.intervals }
        ensures fits { FitsTally self.new }
        ensures reader { self.new.reader ≡ self.old.reader }
        ensures counted { (own : Events) × Tells self.old.reader brought own
            × (self.new.counts ≡ fold with_event self.old.counts (event_list own)) }
    {
        let events = self.reader.events(brought);
        self.counts.add(events.first);
        self.counts.add(events.second);
    }

    /// Reads the intervals of a cell.
    fn cell(&mut self, cell: Cell)
        requires range { AreIntervals (intervals_of cell) }
        requires room { self.old.reader.intervals + 2 ≤ MAX_INTERVALS }
        requires fits { FitsTally self.old }
        ensures fits { FitsTally self.new }
        ensures count { self.new.reader.intervals ≤ self.old.reader.intervals + 2 }
        ensures reads { (intervals : List ℕ) → HasRead self.old intervals
            → HasRead self.new (intervals ++ intervals_of cell) }
    {
        match cell {
            Cell::Zero(x) => self.interval(x),
            Cell::One(first, second) => {
                self.interval(first);
                self.interval(second);
            }
        }
    }

    /// Reads the cells of 80 bits, bit 0 first.
    fn bits(&mut self, divisors: &Divisors, chance: &mut Chance, bits: u128)
        requires factors { AreFactors divisors.now.factors }
        requires chance { IsChance chance.old }
        requires room { self.old.reader.intervals + 160 ≤ MAX_INTERVALS }
        requires fits { FitsTally self.old }
        ensures chance { IsChance chance.new }
        ensures next { chance.new ≡ behind chance.old (low_bits 80 bits) }
        ensures fits { FitsTally self.new }
        ensures count { self.new.reader.intervals ≤ self.old.reader.intervals + 160 }
        ensures reads { (intervals : List ℕ) → HasRead self.old intervals
            → HasRead self.new (intervals ++ flat (cells_by chance.old (low_bits 80 bits))) }
    {
        let mut rest = bits;
        'cells: for _done in 0..80u32 {
            self.cell(chance.next_cell(divisors, rest % 2 == 1));
            rest /= 2;
        }
    }
}

/// Each word of a run is read, and nothing else.
fn is_all_read(run: &LoadRun)
    ensures { IsAllRead run.now (load_text run.now) }
{
    each_word_has_its_spelling();
    steps_lead_to_labels();
    played_words_are_read();
    let _label = first_label(run.seed());
}

/// The line of a run, whose words were made and read.
fn load_text(run: &LoadRun) -> Text
    ensures { result.items ≡ load_text run.now }
{
    a_list_has_one_list_of_events();
    a_reader_gives_the_events_of_its_list();
    is_all_read(run);
    let divisors = Divisors::new();
    let mut chance = Chance::new(run.seed());
    let mut tally = Tally::new();
    tally.cell(chance.next_cell(&divisors, false));
    tally.cell(chance.next_cell(&divisors, true));
    let mut label = first_label(run.seed());
    'words: for _done in 0..run.words() {
        let word = load_word(&label, chance.draw());
        tally.bits(&divisors, &mut chance, spelling(&word));
        label = advance(&label, 1);
    }
    tally.counts.line(run)
}

/// The label whose number is the seed, modulo the day.
fn first_label(seed: u64) -> Label
    ensures value { result ≡ first_label seed }
    ensures valid { IsLabel result }
    ensures count { result.count ≡ C25 }
{
    let day = u64::from(day_labels(Count::C25));
    match label_at(Count::C25, (seed % day) as u32) {
        Some(label) => label,
        None => unreachable!(),
    }
}

/// The word of a label, with the upper half of a draw as its user bits.
fn load_word(label: &Label, value: u64) -> LtcWord
    requires { label.now.count ≡ C25 }
    ensures value { result ≡ load_word label.now value }
    ensures valid { IsFields result.fields }
{
    let flags = Flags {
        drop_frame: false,
        colour_frame: false,
        group_flag_zero: false,
        group_flag_one: false,
        group_flag_two: false,
    };
    match Fields::new(*label, flags, UserBits::new((value >> 32) as u32)) {
        Ok(fields) => LtcWord {
            fields,
            balanced: true,
        },
        Err(_) => unreachable!(),
    }
}
