//! The words of what an interval brought, one after another. Read next: `flywheel/src/heard.rt`.
ghost use Rattle.std.specs.Prelude.{◌≡◌, [], ◌++◌, true, IfSome, None};
ghost use Rattle.std.specs.Option.{option_to_list};
ghost use Rattle.direction_reader.specs.ConsecutiveStep.{consecutive_list, is_told_word};
ghost use Rattle.direction_reader.specs.Events.{listed};
ghost use Rattle.direction_reader.specs.FirmStep.{firm_listed, IsNoWord};
ghost use Rattle.frame_commands.specs.Heard.{told_events};
ghost use Rattle.frame_commands.specs.Hearing.{due_at};
ghost use Rattle.frame_commands.specs.OfFrames.{words_heard};

use direction_reader::{ConsecutiveEvents, Event, FirmEvent};
use flywheel::HeardWord;
use std::marker::Model;

/// The words of an interval that are still to be heard, in order.
#[derive(Drop)]
pub(crate) struct Words {
    first: Option<HeardWord>,
    second: Option<HeardWord>,
}

impl Model for Words {
    ghost use Rattle.std.specs.Prelude.{List, ◌++◌};
    ghost use Rattle.std.specs.Option.{option_to_list};
    ghost use Rattle.flywheel.specs.declared.heard.HeardWord.{HeardWord};

    ghost Value = { List HeardWord };

    ghost view = { λ w. option_to_list w.first ++ option_to_list w.second };
}

impl Words {
    /// No word.
    pub(crate) fn new() -> Words
        ensures { result ≡ [] }
    {
        Words {
            first: None,
            second: None,
        }
    }

    /// The words among the events that were told: if a word that was held is told, none comes first behind it, and
    /// what comes last is no word.
    pub(crate) fn told(told: ConsecutiveEvents) -> Words
        requires one { IfSome told.held (λ event. is_told_word event ≡ true → told.events.first ≡ None) }
        requires third { IfSome told.events.third IsNoWord }
        ensures { result ≡ words_heard (told_events (consecutive_list told)) }
    {
        let ConsecutiveEvents { held, events } = told;
        let first = told_in(events.first);
        let second = told_in(events.second);
        match told_in(held) {
            Some(word) => Words {
                first: Some(word),
                second,
            },
            None => Words { first, second },
        }
    }

    /// The tick at which the next of them is heard, and without one the last tick.
    pub(crate) fn due_at(&self, last: u64) -> u64
        ensures { result ≡ due_at self.now last }
    {
        match (&self.first, &self.second) {
            (Some(word), _) => word.tick,
            (None, Some(word)) => word.tick,
            (None, None) => last,
        }
    }

    /// Takes the first of them.
    pub(crate) fn next(&mut self) -> Option<HeardWord>
        ensures takes { self.old ≡ option_to_list result ++ self.new }
        ensures none { result ≡ None → self.new ≡ [] }
    {
        match self.first.take() {
            Some(word) => Some(word),
            None => self.second.take(),
        }
    }
}

/// The word that the flywheel hears of a firm event, if it is one.
fn told_in(told: Option<FirmEvent>) -> Option<HeardWord>
    ensures { option_to_list result ≡ words_heard (told_events (firm_listed told)) }
{
    match told {
        Some(FirmEvent::Told(event)) => heard_in(Some(event)),
        Some(FirmEvent::Alone { .. }) => None,
        None => None,
    }
}

/// The word that the flywheel hears of an event, if it is one.
fn heard_in(event: Option<Event>) -> Option<HeardWord>
    ensures { option_to_list result ≡ words_heard (listed event) }
{
    match event {
        Some(
            Event::Word {
                direction,
                word,
                tick,
                length,
            },
        ) => Some(HeardWord {
            label: word.fields.label(),
            direction,
            tick,
            length,
        }),
        Some(Event::Refused { .. }) => None,
        Some(Event::Lost { .. }) => None,
        None => None,
    }
}
