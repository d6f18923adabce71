//! What a reader answers in which the next word may stand in for a witness. Read next: `firm_event`.
ghost use Rattle.std.specs.Prelude.{◌≡◌};
ghost use Rattle.std.specs.Option.{option_map};
ghost use Rattle.direction_reader.specs.ConsecutiveStep.{given_of};
ghost use Rattle.direction_reader.specs.declared.event.Event.{Event};
ghost use Rattle.direction_reader.specs.declared.firm_event.FirmEvent.TheVariants.{Told};

use crate::event::{Event, Events};
use crate::firm_event::{FirmEvent, FirmEvents};
use crate::neighbours::{given, held_of, or_other};

/// What one interval brought, in order: the word that was held, if the interval decided what becomes of it,
/// and then what the interval itself brought.
#[derive(Clone, Copy)]
pub struct ConsecutiveEvents {
    pub held: Option<FirmEvent>,
    pub events: FirmEvents,
}

impl ConsecutiveEvents {
    ghost use Rattle.direction_reader.specs.KeptReading.{all_told, none_held};

    /// Events of which none was held.
    #[inline(always)]
    pub(crate) fn none_held(events: FirmEvents) -> ConsecutiveEvents
        ensures { result ≡ none_held events }
    {
        ConsecutiveEvents { held: None, events }
    }

    /// Events of a reader that asks for no witness.
    #[inline(always)]
    pub(crate) fn all_told(events: Events) -> ConsecutiveEvents
        ensures { result ≡ all_told events }
    {
        ConsecutiveEvents::none_held(FirmEvents {
            first: told_one(events.first),
            second: told_one(events.second),
            third: None,
        })
    }

    /// What is given of the latest event, if it is held, and of these behind it, if `more` may follow.
    pub(crate) fn of(more: bool, latest: &Option<FirmEvent>, told: &FirmEvents) -> ConsecutiveEvents
        ensures { result ≡ given_of more latest.now told.now }
    {
        let before_second = or_other(&told.first, latest);
        let before_third = or_other(&told.second, &before_second);
        let behind_first = or_other(&told.second, &told.third);
        let behind = or_other(&told.first, &behind_first);
        let held = held_of(latest);
        ConsecutiveEvents {
            held: given(more, &None, &held, &behind),
            events: FirmEvents {
                first: given(more, latest, &told.first, &behind_first),
                second: given(more, &before_second, &told.second, &told.third),
                third: given(more, &before_third, &told.third, &None),
            },
        }
    }
}

/// The event, as it is told.
#[inline(always)]
fn told_one(event: Option<Event>) -> Option<FirmEvent>
    ensures { result ≡ option_map (λ (event : Event). Told event) event }
{
    match event {
        Some(event) => Some(FirmEvent::Told(event)),
        None => None,
    }
}
