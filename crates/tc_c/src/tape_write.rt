//! Intervals in, and events out in numbers. Read next: `tape_handle`.
ghost use Rattle.std.specs.Prelude.{◌≡◌, ◌+◌, ◌≤◌, ◌<◌, ◌++◌, length, take, drop, map, false};
ghost use Rattle.direction_reader.specs.ConsecutiveStep.{consecutive_list};
ghost use Rattle.direction_reader.specs.FirmStep.{firm_listed};
ghost use Rattle.direction_reader.specs.Reading.{most_told};
ghost use Rattle.tape_reader.specs.Tape.{begins_with_none, is_full, settings_of};
ghost use Rattle.tc_c.specs.CEvent.{c_told};
ghost use Rattle.tc_c.specs.Write.{room_for, room_of, TapeGoes};

use crate::event::TcEvent;
use crate::told::c_told;
use direction_reader::{ConsecutiveEvents, FirmEvent, Witness};
use tape_reader::{TapeReader, is_interval};

/// What a call took and gave.
#[repr(C)]
#[derive(Clone, Copy)]
pub struct TcTapeTaken {
    /// So many intervals were taken, from the front.
    pub used: usize,
    /// So many events were written, from the front.
    pub made: usize,
    /// Whether nothing more is taken, whatever room there is.
    pub full: bool,
    /// Whether the next number is no interval, which is never taken.
    pub refused: bool,
}

/// Takes intervals from the front, and writes the events that they bring, as long as there is room for three, or
/// four of consecutive words.
pub(crate) fn write_tape(
    tape: &mut TapeReader,
    intervals: &[u32],
    events: &mut [TcEvent],
) -> TcTapeTaken
    ensures used { result.used ≤ length intervals.now }
    ensures made { result.made ≤ length events.old }
    ensures settings { settings_of tape.new ≡ settings_of tape.old }
    ensures goes { TapeGoes tape.old tape.new (take result.used intervals.now) (take result.made events.new) }
    ensures rest { drop result.made events.new ≡ drop result.made events.old }
    ensures all { result.made + room_of tape.old ≤ length events.old → result.full ≡ false → result.refused ≡ false
        → result.used ≡ length intervals.now }
    ensures few { length events.old < room_of tape.old → (result.used ≡ 0) × (result.made ≡ 0) × (tape.new ≡ tape.old) }
    ensures full { result.full ≡ is_full tape.new }
    ensures refused { result.refused ≡ begins_with_none (drop result.used intervals.now) }
{
    let room = room_for(tape.witness());
    let mut at = 0;
    let mut made = 0;
    'writing: while events.len() - made >= room {
        let (count, told) = tape.read(&intervals[at..]);
        at += count;
        let last = put_all(&told, events, made);
        if last == made {
            break;
        }
        made = last;
    }
    TcTapeTaken {
        used: at,
        made,
        full: tape.is_full(),
        refused: is_none_at(intervals, at),
    }
}

/// The room that a call asks for, in events.
pub(crate) fn room_for(witness: Witness) -> usize
    ensures value { result ≡ room_for witness }
    ensures enough { most_told witness ≤ result }
    ensures some { 1 ≤ result }
{
    match witness {
        Witness::NotAsked | Witness::Asked | Witness::Counted => 3,
        Witness::Consecutive => 4,
    }
}

/// Tells whether the number at a place is no interval.
fn is_none_at(intervals: &[u32], at: usize) -> bool
    ensures { result ≡ begins_with_none (drop at intervals.now) }
{
    at < intervals.len() && !is_interval(intervals[at])
}

/// Writes what was told behind the events that are made, and gives how many are made then.
pub(crate) fn put_all(told: &ConsecutiveEvents, events: &mut [TcEvent], made: usize) -> usize
    requires room { made + length (consecutive_list told.now) ≤ length events.old }
    ensures count { result ≡ made + length (consecutive_list told.now) }
    ensures writes { take result events.new ≡ take made events.old ++ map c_told (consecutive_list told.now) }
    ensures rest { drop result events.new ≡ drop result events.old }
{
    let held = put_told(&told.held, events, made);
    let first = put_told(&told.events.first, events, held);
    let second = put_told(&told.events.second, events, first);
    put_told(&told.events.third, events, second)
}

/// Writes an event, where there is one, behind those that are made, and gives how many are made then.
fn put_told(told: &Option<FirmEvent>, events: &mut [TcEvent], made: usize) -> usize
    requires room { made + length (firm_listed told.now) ≤ length events.old }
    ensures count { result ≡ made + length (firm_listed told.now) }
    ensures writes { take result events.new ≡ take made events.old ++ map c_told (firm_listed told.now) }
    ensures rest { drop result events.new ≡ drop result events.old }
{
    match told {
        Some(told) => {
            events[made] = c_told(told);
            made + 1
        }
        None => made,
    }
}
