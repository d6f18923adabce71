//! The addresses of messages, and the label of an address or its first fault. Read next: `event`.
ghost use Rattle.std.specs.Prelude.{◌≡◌, ◌<◌};
ghost use Rattle.tc_address.specs.Label.{address};
ghost use Rattle.mtc_reader.specs.Events.{count_with, full_address, quarter_address, bits_at, full_event};
ghost use Rattle.mtc_reader.specs.Events.{quarter_event, label_or_fault};

use crate::event::MtcEvent;
use tc_address::{Count, Direction, Label, LabelFault};

/// How the frames are counted, by the two bits that say it.
fn count_of(code: u8) -> Count
    ensures { result ≡ count_with code }
{
    match code {
        0 => Count::C24,
        1 => Count::C25,
        2 => Count::Drop30,
        _ => Count::C30,
    }
}

/// The label with these parts, or the first fault.
fn label(count: Count, hours: u8, minutes: u8, seconds: u8, frames: u8) -> Result<Label, LabelFault>
    ensures { result ≡ label_or_fault (address count hours minutes seconds frames) }
{
    Label::new(
        count,
        u32::from(hours),
        u32::from(minutes),
        u32::from(seconds),
        u32::from(frames),
    )
}

/// What a full message gives. The count is above the five bits of the hours.
pub fn full(hours: u8, minutes: u8, seconds: u8, frames: u8, place: u64) -> MtcEvent
    ensures { result ≡ full_event (full_address hours minutes seconds frames) place }
{
    match label(count_of(hours / 32), hours % 32, minutes, seconds, frames) {
        Ok(label) => MtcEvent::Full { label, place },
        Err(fault) => MtcEvent::RefusedFull { fault, place },
    }
}

/// The four bits of a piece.
fn bits(window: &[u8; 8], piece: usize) -> u8
    requires { piece < 8 }
    ensures bits { result ≡ bits_at window.now piece }
    ensures four { result < 16 }
{
    window[piece] % 16
}

/// What eight quarter frames give, in the order of their pieces.
pub fn quarter(direction: Direction, window: &[u8; 8], place: u64) -> MtcEvent
    ensures { result ≡ quarter_event direction (quarter_address window.now) place }
{
    let last = bits(window, 7);
    let hours = bits(window, 6) + 16 * (last % 2);
    let minutes = bits(window, 4) + 16 * (bits(window, 5) % 4);
    let seconds = bits(window, 2) + 16 * (bits(window, 3) % 4);
    let frames = bits(window, 0) + 16 * (bits(window, 1) % 2);
    match label(count_of(last / 2 % 4), hours, minutes, seconds, frames) {
        Ok(label) => MtcEvent::Quarter {
            direction,
            label,
            place,
        },
        Err(fault) => MtcEvent::RefusedQuarter {
            direction,
            fault,
            place,
        },
    }
}
