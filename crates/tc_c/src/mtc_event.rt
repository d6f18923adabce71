//! An event of MIDI Time Code in numbers. Read next: `mtc_reader_kept`.
ghost use Rattle.std.specs.Prelude.{◌≡◌};
ghost use Rattle.tc_c.specs.CMtc.{c_mtc_event, label_fault_number};

use crate::event::direction_number;
use crate::label::{TcLabel, no_label};
use mtc_reader::MtcEvent;
use tc_address::LabelFault;

/// A label that was read from MIDI Time Code, or one that is refused, in numbers. Those that say nothing of it
/// are 0.
#[repr(C)]
#[derive(Clone, Copy)]
pub struct TcMtcEvent {
    /// 1 a full message, 2 eight quarter frames.
    pub kind: u32,
    /// Of quarter frames, 0 forward, 1 backward.
    pub direction: u32,
    /// 0, or the fault of an address that is no label, from 1 to 5.
    pub fault: u32,
    pub label: TcLabel,
    /// The place of the byte that completes it, counted from 0 over all bytes.
    pub place: u64,
}

/// The event in numbers.
pub(crate) fn c_mtc_event(event: &MtcEvent) -> TcMtcEvent
    ensures { result ≡ c_mtc_event event.now }
{
    match event {
        MtcEvent::Full { label, place } => TcMtcEvent {
            kind: 1,
            direction: 0,
            fault: 0,
            label: TcLabel::numbers_of(label),
            place: *place,
        },
        MtcEvent::Quarter {
            direction,
            label,
            place,
        } => TcMtcEvent {
            kind: 2,
            direction: u32::from(direction_number(*direction)),
            fault: 0,
            label: TcLabel::numbers_of(label),
            place: *place,
        },
        MtcEvent::RefusedFull { fault, place } => TcMtcEvent {
            kind: 1,
            direction: 0,
            fault: label_fault_number(*fault),
            label: no_label(),
            place: *place,
        },
        MtcEvent::RefusedQuarter {
            direction,
            fault,
            place,
        } => TcMtcEvent {
            kind: 2,
            direction: u32::from(direction_number(*direction)),
            fault: label_fault_number(*fault),
            label: no_label(),
            place: *place,
        },
    }
}

/// The number of the fault of an address.
fn label_fault_number(fault: LabelFault) -> u32
    ensures { result ≡ label_fault_number fault }
{
    match fault {
        LabelFault::Hours => 1,
        LabelFault::Minutes => 2,
        LabelFault::Seconds => 3,
        LabelFault::Frames => 4,
        LabelFault::Dropped => 5,
    }
}
