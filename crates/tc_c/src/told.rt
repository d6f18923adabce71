//! An event in numbers, where words may be asked for a witness. Read next: `tape_settings`.
ghost use Rattle.std.specs.Prelude.{◌≡◌};
ghost use Rattle.tc_c.specs.CEvent.{c_told};

use crate::event::{TcEvent, c_event, refused};
use direction_reader::FirmEvent;

/// The number that stands where a fault does in a word without a witness.
const ALONE: u8 = 12;

/// The event in numbers.
pub(crate) fn c_told(told: &FirmEvent) -> TcEvent
    ensures { result ≡ c_told told.now }
{
    match told {
        FirmEvent::Told(event) => c_event(event),
        FirmEvent::Alone {
            direction,
            tick,
            ..
        } => refused(*direction, ALONE, *tick),
    }
}
