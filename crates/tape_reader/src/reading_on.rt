//! Intervals from a list to any reader. Read next: `direction_reader/src/reading.rt`.
ghost use Rattle.std.specs.Prelude.{◌≡◌, ℕ, ◌-◌, ◌≤◌, ◌↔◌, IsTrue, length, take, drop, true, false, [], None};
ghost use Rattle.std.specs.Prelude.{nat_le};
ghost use Rattle.direction_reader.specs.ConsecutiveStep.{consecutive_list};
ghost use Rattle.direction_reader.specs.KeptReading.{none_held};
ghost use Rattle.direction_reader.specs.Reading.{most_told, ReadingState, ReadsMore};
ghost use Rattle.limits.specs.declared.recording.TheConstants.{MAX_INTERVAL, MAX_INTERVALS};
ghost use Rattle.tape_reader.specs.Reads.{Keeps};
ghost use Rattle.tape_reader.specs.Tape.{begins_with_none, is_interval, nothing_brought};

use direction_reader::{ConsecutiveEvents, FirmEvents, Reading};
use limits::{MAX_INTERVAL, MAX_INTERVALS};

/// Takes intervals from the front up to the first one that brings an event, or else all of them, but none from a
/// number on that is no interval. Gives how many these are, and what they brought.
pub(crate) fn read_on<R: Reading>(reader: &mut R, intervals: &[u32]) -> (usize, ConsecutiveEvents)
    ensures within { result.0 ≤ length intervals.now }
    ensures keeps { Keeps (R.reading reader.old) (R.reading reader.new) }
    ensures brings { ReadsMore (R.reading reader.old) (R.reading reader.new) (take result.0 intervals.now)
        (consecutive_list result.1) }
    ensures most { length (consecutive_list result.1) ≤ most_told R.witness }
    ensures latest { ¬ (result.1 ≡ nothing_brought) → (before : R) × (1 ≤ result.0)
        × Keeps (R.reading reader.old) (R.reading before)
        × ReadsMore (R.reading reader.old) (R.reading before) (take (result.0 - 1) intervals.now) [] }
    ensures some { result.1 ≡ nothing_brought
        → nat_le MAX_INTERVALS (ReadingState.count (R.reading reader.new)) ≡ false
        → begins_with_none (drop result.0 intervals.now) ≡ false → result.0 ≡ length intervals.now }
{
    let mut at = 0;
    'reading: while at < intervals.len()
        && is_interval(intervals[at])
        && reader.intervals() < MAX_INTERVALS
    {
        let brought = reader.step(intervals[at]);
        at += 1;
        if !R::is_nothing(&brought) {
            let told = reader.told(brought);
            if !are_none(&told) {
                return (at, told);
            }
        }
    }
    (at, none())
}

/// Tells whether a number of ticks is an interval.
#[inline(always)]
pub fn is_interval(x: u32) -> bool
    ensures { result ≡ is_interval x }
{
    x >= 1 && x <= MAX_INTERVAL
}

/// No event.
#[inline(always)]
fn none() -> ConsecutiveEvents
    ensures { result ≡ nothing_brought }
{
    ConsecutiveEvents {
        held: None,
        events: FirmEvents {
            first: None,
            second: None,
            third: None,
        },
    }
}

/// Tells whether there is no event.
#[inline(always)]
fn are_none(told: &ConsecutiveEvents) -> bool
    ensures { IsTrue result ↔ told.now ≡ nothing_brought }
{
    let events = &told.events;
    told.held.is_none()
        && events.first.is_none()
        && events.second.is_none()
        && events.third.is_none()
}
