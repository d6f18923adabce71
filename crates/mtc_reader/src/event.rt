//! What a reader answers. Read next: `texts`.

use tc_address::{Direction, Label, LabelFault};

/// A label that was read, or the fault of an address that is no label. The place is that of the byte
/// that completes it, counted from 0 over all bytes.
#[derive(Clone, Copy)]
pub enum MtcEvent {
    /// A full message. Its place is that of its `f7`.
    Full {
        label: Label,
        place: u64,
    },
    /// Eight quarter frames. Forward is a row of the pieces 0 to 7, backward one of 7 to 0. The place is
    /// that of the data byte of the last one.
    Quarter {
        direction: Direction,
        label: Label,
        place: u64,
    },
    /// A full message whose address is no label.
    RefusedFull {
        fault: LabelFault,
        place: u64,
    },
    /// Eight quarter frames whose address is no label.
    RefusedQuarter {
        direction: Direction,
        fault: LabelFault,
        place: u64,
    },
}
