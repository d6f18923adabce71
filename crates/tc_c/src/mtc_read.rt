//! Bytes in, and labels out in numbers. Read next: `mtc_reader_handle`.
ghost use Rattle.std.specs.Prelude.{◌≡◌, ◌+◌, ◌^◌, ◌≤◌, ◌<◌, ◌++◌, length, take, drop, map, false};
ghost use Rattle.mtc_reader.specs.StandsFor.{events_of};
ghost use Rattle.tc_c.specs.CMtc.{c_mtc_event, is_full_of_bytes};
ghost use Rattle.tc_c.specs.Write.{MtcGoes};

use crate::mtc_event::{TcMtcEvent, c_mtc_event};
use crate::write::TcTaken;
use mtc_reader::{MtcEvent, MtcReader};

/// So many bytes are taken at most.
const MAX_BYTES: u64 = 1 << 62;

/// Takes bytes from the front, and writes the labels that they complete, as long as there is room.
pub(crate) fn read_mtc(reader: &mut MtcReader, bytes: &[u8], events: &mut [TcMtcEvent]) -> TcTaken
    ensures used { result.used ≤ length bytes.now }
    ensures made { result.made ≤ length events.old }
    ensures goes { MtcGoes reader.old reader.new (take result.used bytes.now) (take result.made events.new) }
    ensures rest { drop result.made events.new ≡ drop result.made events.old }
    ensures all { result.made < length events.old → result.full ≡ false → result.used ≡ length bytes.now }
    ensures few { length events.old ≡ 0 → (result.used ≡ 0) × (result.made ≡ 0) × (reader.new ≡ reader.old) }
    ensures full { result.full ≡ is_full_of_bytes reader.new }
{
    let before = reader.bytes();
    if before >= MAX_BYTES {
        return TcTaken {
            used: 0,
            made: 0,
            full: true,
        };
    }
    let room = MAX_BYTES - before;
    let most = if bytes.len() as u64 <= room {
        bytes.len()
    } else {
        room as usize
    };
    let (used, made) = read_on(reader, &bytes[..most], events);
    TcTaken {
        used,
        made,
        full: reader.bytes() >= MAX_BYTES,
    }
}

/// The same for so few bytes that all of them may be taken. Gives how many were taken, and how many labels were
/// written.
fn read_on(reader: &mut MtcReader, bytes: &[u8], events: &mut [TcMtcEvent]) -> (usize, usize)
    requires { reader.old.bytes + length bytes.now ≤ 2 ^ 62 }
    ensures used { result.0 ≤ length bytes.now }
    ensures made { result.1 ≤ length events.old }
    ensures count { reader.new.bytes ≡ reader.old.bytes + result.0 }
    ensures goes { MtcGoes reader.old reader.new (take result.0 bytes.now) (take result.1 events.new) }
    ensures rest { drop result.1 events.new ≡ drop result.1 events.old }
    ensures all { result.1 < length events.old → result.0 ≡ length bytes.now }
    ensures few { length events.old ≡ 0 → (result.0 ≡ 0) × (result.1 ≡ 0) × (reader.new ≡ reader.old) }
{
    let mut at = 0;
    let mut made = 0;
    'reading: while made < events.len() && at < bytes.len() {
        let (count, event) = reader.take(&bytes[at..]);
        at += count;
        made = put_mtc(&event, events, made);
    }
    (at, made)
}

/// Writes an event, where there is one, behind those that are made, and gives how many are made then.
fn put_mtc(event: &Option<MtcEvent>, events: &mut [TcMtcEvent], made: usize) -> usize
    requires room { made < length events.old }
    ensures count { result ≡ made + length (events_of event.now) }
    ensures most { result ≤ made + 1 }
    ensures writes { take result events.new ≡ take made events.old ++ map c_mtc_event (events_of event.now) }
    ensures rest { drop result events.new ≡ drop result events.old }
{
    match event {
        Some(event) => {
            events[made] = c_mtc_event(event);
            made + 1
        }
        None => made,
    }
}
