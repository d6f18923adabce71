//! Samples in, and events out in numbers. Read next: `sound_reader/src/settings.rt`.
ghost use Rattle.std.specs.Prelude.{◌≡◌, ◌+◌, ◌≤◌, ◌<◌, ◌++◌, length, take, drop, map, false};
ghost use Rattle.direction_reader.specs.Events.{listed};
ghost use Rattle.sound_reader.specs.Sound.{is_full, IsSettled};
ghost use Rattle.tc_c.specs.CEvent.{c_event};
ghost use Rattle.tc_c.specs.Write.{Goes};

use crate::event::{TcEvent, c_event};
use direction_reader::Event;
use sound_reader::SoundReader;

/// What a call took and gave.
#[repr(C)]
#[derive(Clone, Copy)]
pub struct TcTaken {
    /// So many samples were taken, from the front.
    pub used: usize,
    /// So many events were written, from the front.
    pub made: usize,
    /// Whether nothing more is taken, whatever room there is.
    pub full: bool,
}

/// Takes samples from the front, and writes the events that they bring, as long as there is room for two.
pub(crate) fn write(reader: &mut SoundReader, samples: &[i16], events: &mut [TcEvent]) -> TcTaken
    ensures used { result.used ≤ length samples.now }
    ensures made { result.made ≤ length events.old }
    ensures settings { reader.new.settings ≡ reader.old.settings }
    ensures goes { Goes reader.old reader.new (take result.used samples.now) (take result.made events.new) }
    ensures rest { drop result.made events.new ≡ drop result.made events.old }
    ensures all { result.made + 2 ≤ length events.old → is_full reader.new ≡ false
        → (result.used ≡ length samples.now) × IsSettled reader.new }
    ensures few { length events.old < 2 → (result.used ≡ 0) × (result.made ≡ 0) × (reader.new ≡ reader.old) }
    ensures full { result.full ≡ is_full reader.new }
{
    let mut at = 0;
    let mut made = 0;
    'writing: while events.len() - made >= 2 {
        let (count, brought) = reader.read(&samples[at..]);
        at += count;
        let first = put(&brought.first, events, made);
        let second = put(&brought.second, events, first);
        if second == made {
            break;
        }
        made = second;
    }
    TcTaken {
        used: at,
        made,
        full: reader.is_full(),
    }
}

/// Writes an event, where there is one, behind those that are made, and gives how many are made then.
fn put(event: &Option<Event>, events: &mut [TcEvent], made: usize) -> usize
    requires room { made < length events.old }
    ensures count { result ≡ made + length (listed event.now) }
    ensures writes { take result events.new ≡ take made events.old ++ map c_event (listed event.now) }
    ensures rest { drop result events.new ≡ drop result events.old }
{
    match event {
        Some(event) => {
            events[made] = c_event(event);
            made + 1
        }
        None => made,
    }
}
