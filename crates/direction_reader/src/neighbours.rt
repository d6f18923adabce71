//! What becomes of an event between its neighbours. Read next: `flywheel/src/heard.rt`.
ghost use Rattle.std.specs.Prelude.{◌≡◌, ◌+◌, ◌==◌, Some, if◌then◌else◌};
ghost use Rattle.direction_reader.specs.declared.event.Event.TheVariants.{Word};
ghost use Rattle.direction_reader.specs.declared.firm_event.FirmEvent.TheVariants.{Told, Alone};
ghost use Rattle.direction_reader.specs.Consecutive.{between, heard_as, joins, or_other, word_at, word_of};
ghost use Rattle.direction_reader.specs.ConsecutiveStep.{given, latest_of};
ghost use Rattle.direction_reader.specs.ConsecutiveTold.{held_of};

use crate::event::Event;
use crate::firm_event::{FirmEvent, FirmEvents};
use flywheel::HeardWord;
use ltc_word::LtcWord;
use tc_address::Direction;

/// The word that an event is, if it is one, with a witness or without.
fn word_of(event: &FirmEvent) -> Option<HeardWord>
    ensures { result ≡ word_of event.now }
{
    match *event {
        FirmEvent::Told(
            Event::Word {
                direction,
                word,
                tick,
                length,
            },
        ) => Some(heard_as(direction, &word, tick, length)),
        FirmEvent::Told(Event::Refused { .. }) => None,
        FirmEvent::Told(Event::Lost { .. }) => None,
        FirmEvent::Alone {
            direction,
            word,
            tick,
            length,
        } => Some(heard_as(direction, &word, tick, length)),
    }
}

/// A word with its label, its direction, the tick at its end and its length.
pub(crate) fn heard_as(direction: Direction, word: &LtcWord, tick: u64, length: u64) -> HeardWord
    ensures { result ≡ heard_as direction word.now tick length }
{
    HeardWord {
        label: word.fields.label(),
        direction,
        tick,
        length,
    }
}

/// The word of an event that may be there.
fn word_at(event: &Option<FirmEvent>) -> Option<HeardWord>
    ensures { result ≡ word_at event.now }
{
    match event {
        Some(event) => word_of(event),
        None => None,
    }
}

/// Whether of two words the second begins where the first ends, has its direction, and counts on.
fn joins(first: &Option<HeardWord>, second: &Option<HeardWord>) -> bool
    ensures { result ≡ joins first.now second.now }
{
    match (first, second) {
        (Some(first), Some(second)) => begins_at(second, first.tick) && first.leads_to(1, second),
        _ => false,
    }
}

/// Whether a word begins at a tick.
fn begins_at(word: &HeardWord, tick: u64) -> bool
    ensures { result ≡ (tick + word.now.length == word.now.tick) }
{
    tick <= word.tick && word.tick - tick == word.length
}

/// What becomes of an event between the one just before it and the one just behind it.
fn between(before: &Option<FirmEvent>, event: &FirmEvent, behind: &Option<FirmEvent>) -> FirmEvent
    ensures { result ≡ between before.now event.now behind.now }
{
    match *event {
        FirmEvent::Told(told) => FirmEvent::Told(told),
        FirmEvent::Alone {
            direction,
            word,
            tick,
            length,
        } => {
            let own = Some(heard_as(direction, &word, tick, length));
            let joined = match direction {
                Direction::Forward => joins(&own, &word_at(behind)),
                Direction::Backward => joins(&word_at(before), &own),
            };
            told_if(joined, direction, word, tick, length)
        }
    }
}

/// A word without a witness: told if it is joined, and else alone.
fn told_if(joined: bool, direction: Direction, word: LtcWord, tick: u64, length: u64) -> FirmEvent
    ensures { result ≡ (if joined then Told (Word direction word tick length) else Alone direction word tick length) }
{
    if joined {
        FirmEvent::Told(Event::Word {
            direction,
            word,
            tick,
            length,
        })
    } else {
        FirmEvent::Alone {
            direction,
            word,
            tick,
            length,
        }
    }
}

/// The event, if the next one decides what becomes of it: a word without a witness that is played
/// forward.
pub fn held_of(event: &Option<FirmEvent>) -> Option<FirmEvent>
    ensures { result ≡ held_of event.now }
{
    match event {
        Some(
            FirmEvent::Alone {
                direction: Direction::Forward,
                ..
            },
        ) => *event,
        _ => None,
    }
}

/// What is given of an event between its neighbours. If none is behind it and `more` may follow, it
/// may be held.
pub fn given(
    more: bool,
    before: &Option<FirmEvent>,
    event: &Option<FirmEvent>,
    behind: &Option<FirmEvent>,
) -> Option<FirmEvent>
    ensures { result ≡ given more before.now event.now behind.now }
{
    match event {
        Some(own) => {
            if more && behind.is_none() && held_of(event).is_some() {
                None
            } else {
                Some(between(before, own, behind))
            }
        }
        None => None,
    }
}

/// The latest event, if these come behind it.
pub fn latest_of(latest: &Option<FirmEvent>, told: &FirmEvents) -> Option<FirmEvent>
    ensures { result ≡ latest_of latest.now told.now }
{
    let first = or_other(&told.first, latest);
    let second = or_other(&told.second, &first);
    or_other(&told.third, &second)
}

/// An event, and else another one.
pub fn or_other(event: &Option<FirmEvent>, other: &Option<FirmEvent>) -> Option<FirmEvent>
    ensures { result ≡ or_other event.now other.now }
{
    match event {
        Some(event) => Some(*event),
        None => *other,
    }
}
