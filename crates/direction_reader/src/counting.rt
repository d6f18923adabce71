//! Whether a word counts on from another, and what becomes of the events of one window after the other. Read next:
//! `flywheel/src/heard.rt`.
ghost use Rattle.std.specs.Prelude.{◌≡◌, ◌≤◌, ℕ, length, IfSome, None};
ghost use Rattle.direction_reader.specs.Brings.{Brings, IsLatest};
ghost use Rattle.direction_reader.specs.ConsecutiveStep.{consecutive_list, ConsecutiveBrings};
ghost use Rattle.direction_reader.specs.Counted.{counts_on, heard_of, is_frames_on, later_word, lies_behind};
ghost use Rattle.direction_reader.specs.CountedStep.{heard_with, heard_with_all, held_alone, released, told_with};
ghost use Rattle.direction_reader.specs.CountedStep.{told_with_all, IsHeldBy};
ghost use Rattle.direction_reader.specs.CountedTold.{told_without, undecided, until_held};
ghost use Rattle.direction_reader.specs.Events.{event_list, is_word};
ghost use Rattle.direction_reader.specs.Firm.{judged};
ghost use Rattle.direction_reader.specs.FirmStep.{firm_listed};

use crate::consecutive_event::ConsecutiveEvents;
use crate::event::{Event, Events};
use crate::firm_event::{FirmEvent, FirmEvents};
use crate::neighbours::{heard_as, or_other};
use flywheel::HeardWord;

/// What has been heard.
#[derive(Clone, Copy)]
pub struct Counting {
    /// The latest word.
    pub word: Option<HeardWord>,
    /// The latest event, if the next one decides whether it counts: a word that does not count on from the one before
    /// it.
    pub held: Option<Event>,
}

/// What an event brings: the word that was held, and the event itself, unless it is held now.
#[derive(Clone, Copy)]
struct Given {
    held: Option<FirmEvent>,
    own: Option<FirmEvent>,
}

impl Counting {
    /// Nothing was heard.
    pub(crate) fn new() -> Counting
        ensures { result ≡ record { word = None; held = None } }
    {
        Counting {
            word: None,
            held: None,
        }
    }

    /// Takes the events of an interval, in order, and gives what they decide.
    pub(crate) fn hear(&mut self, events: Events) -> ConsecutiveEvents
        ensures told { consecutive_list result ≡ told_with_all self.old (event_list events) }
        ensures heard { self.new ≡ heard_with_all self.old (event_list events) }
        ensures few { length (consecutive_list result) ≤ 3 }
        ensures brings { (intervals now : ℕ) → IfSome self.old.held (IsHeldBy now) → Brings intervals now events
            → ConsecutiveBrings intervals now result }
    {
        match (events.first, events.second) {
            (None, None) => told_of(None, None, None, None),
            (Some(event), None) => self.hear_one(event),
            (None, Some(event)) => self.hear_one(event),
            (Some(first), Some(second)) => {
                let is_word = heard_of(&first).is_some();
                let one = self.take(first);
                let two = self.take(second);
                if is_word {
                    told_of(one.held, None, or_other(&one.own, &two.held), two.own)
                } else {
                    told_of(one.held, one.own, two.own, None)
                }
            }
        }
    }

    /// Takes the one event of an interval.
    fn hear_one(&mut self, event: Event) -> ConsecutiveEvents
        ensures told { consecutive_list result ≡ told_with self.old event }
        ensures heard { self.new ≡ heard_with self.old event }
        ensures few { length (consecutive_list result) ≤ 3 }
        ensures brings { (intervals now : ℕ) → IfSome self.old.held (IsHeldBy now) → IsLatest intervals now event
            → ConsecutiveBrings intervals now result }
    {
        let given = self.take(event);
        told_of(given.held, None, given.own, None)
    }

    /// Takes an event, and gives what it decides.
    fn take(&mut self, event: Event) -> Given
        ensures held { firm_listed result.held ≡ released self.old.held event }
        ensures own { firm_listed result.own ≡ told_without (undecided self.old.word event) event }
        ensures heard { self.new ≡ heard_with self.old event }
    {
        let heard = heard_of(&event);
        let held = match self.held {
            Some(word) => Some(judge(counts_on(&heard_of(&word), &heard), word)),
            None => None,
        };
        let is_held = heard.is_some() && !counts_on(&self.word, &heard);
        self.word = heard.or(self.word);
        self.held = if is_held { Some(event) } else { None };
        let own = if is_held {
            None
        } else {
            Some(FirmEvent::Told(event))
        };
        Given { held, own }
    }

    /// What is given at the end, if no event comes behind one that is held.
    pub(crate) fn last(&self) -> ConsecutiveEvents
        ensures told { consecutive_list result ≡ held_alone self.now.held }
        ensures few { length (consecutive_list result) ≤ 3 }
        ensures brings { (intervals now : ℕ) → IfSome self.now.held (IsHeldBy now)
            → ConsecutiveBrings intervals now result }
    {
        let held = match self.held {
            Some(event) => Some(judge(false, event)),
            None => None,
        };
        told_of(held, None, None, None)
    }
}

/// These events, in this order.
fn told_of(
    held: Option<FirmEvent>,
    first: Option<FirmEvent>,
    second: Option<FirmEvent>,
    third: Option<FirmEvent>,
) -> ConsecutiveEvents
    ensures { result ≡ record { held = held; events = record { first = first; second = second; third = third } } }
{
    ConsecutiveEvents {
        held,
        events: FirmEvents {
            first,
            second,
            third,
        },
    }
}

/// The word that an event is, if it is one.
fn heard_of(event: &Event) -> Option<HeardWord>
    ensures { result ≡ heard_of event.now }
{
    match *event {
        Event::Word {
            direction,
            word,
            tick,
            length,
        } => Some(heard_as(direction, &word, tick, length)),
        Event::Refused { .. } | Event::Lost { .. } => None,
    }
}

/// Whether of two words the second counts on from the first.
fn counts_on(first: &Option<HeardWord>, second: &Option<HeardWord>) -> bool
    ensures { result ≡ counts_on first.now second.now }
{
    match (first, second) {
        (Some(first), Some(second)) => is_frames_on(first, 1, second)
            || is_frames_on(first, 2, second),
        _ => false,
    }
}

/// Whether one word has the label and the place so many frames behind another.
fn is_frames_on(first: &HeardWord, frames: u32, second: &HeardWord) -> bool
    requires { 1 ≤ frames }
    ensures { result ≡ is_frames_on first.now frames second.now }
{
    first.leads_to(frames, second) && lies_behind(first, frames, second)
}

/// Whether one word ends so many frames behind another, to within three tenths of a frame.
fn lies_behind(first: &HeardWord, frames: u32, second: &HeardWord) -> bool
    requires { 1 ≤ frames }
    ensures { result ≡ lies_behind first.now frames second.now }
{
    let both = u128::from(first.length) + u128::from(second.length);
    let apart = 20 * u128::from(second.tick.saturating_sub(first.tick));
    let tenths = 10 * u128::from(frames);
    (tenths - 3) * both <= apart && apart <= (tenths + 3) * both
}

/// What becomes of an event: a word that does not count is alone.
fn judge(counts: bool, event: Event) -> FirmEvent
    ensures { result ≡ judged counts event }
{
    if counts {
        return FirmEvent::Told(event);
    }
    match event {
        Event::Word {
            direction,
            word,
            tick,
            length,
        } => FirmEvent::Alone {
            direction,
            word,
            tick,
            length,
        },
        Event::Refused { .. } | Event::Lost { .. } => FirmEvent::Told(event),
    }
}
