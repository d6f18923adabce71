//! The words that a window of 80 bits may be. Read next: `ltc_word/src/reading.rt`, and then `event`.
ghost use Rattle.std.specs.Prelude.{◌<◌, ◌^◌};
ghost use Rattle.ltc_word.specs.Reversal.{EndsInSync, reversed_bits};
ghost use Rattle.direction_reader.specs.Candidate.{IsEventOf, AreEventsOf, Bears, BearsOnly};

use crate::event::{Event, Events};
use ltc_word::{WordFault, begins_in_reversed_sync, decode, ends_in_sync, reversed};
use tc_address::{Direction, System};

/// The events of one window, whose bit 0 is the oldest. That of the word read forward comes first,
/// if the window ends in the sync word, and then that of the word read backward, if the
/// window begins with the sync word in reverse. The tick is that of the window's end, and the length
/// that of its 80 cells.
pub fn window_events(system: System, bits: u128, tick: u64, length: u64) -> Events
    requires { bits < 2 ^ 80 }
    ensures candidates { AreEventsOf system bits tick length result }
    ensures bears { BearsOnly tick length result }
{
    match (ends_in_sync(bits), begins_in_reversed_sync(bits)) {
        (false, false) => Events::none(),
        (true, false) => Events::one(candidate(Direction::Forward, system, bits, tick, length)),
        (false, true) => Events::one(backward_candidate(system, bits, tick, length)),
        (true, true) => Events {
            first: Some(candidate(Direction::Forward, system, bits, tick, length)),
            second: Some(backward_candidate(system, bits, tick, length)),
        },
    }
}

/// The event of a window that is read backward.
fn backward_candidate(system: System, bits: u128, tick: u64, length: u64) -> Event
    requires eighty { bits < 2 ^ 80 }
    requires sync { EndsInSync (reversed_bits bits) }
    ensures event { IsEventOf system Direction.Backward (reversed_bits bits) tick length result }
    ensures bears { Bears tick length result }
{
    let bits = reversed(bits);
    candidate(Direction::Backward, system, bits, tick, length)
}

/// The event of bits that end in the sync word, read in their direction.
fn candidate(direction: Direction, system: System, bits: u128, tick: u64, length: u64) -> Event
    requires eighty { bits < 2 ^ 80 }
    requires sync { EndsInSync bits }
    ensures event { IsEventOf system direction bits tick length result }
    ensures bears { Bears tick length result }
{
    match decode(system, bits) {
        Ok(word) => Event::Word {
            direction,
            word,
            tick,
            length,
        },
        Err(WordFault::Field(fault)) => Event::Refused {
            direction,
            fault,
            tick,
        },
        Err(WordFault::Sync(_)) => unreachable!(),
    }
}
