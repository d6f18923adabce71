//! MIDI bytes to labels: what came over a MIDI cable, read back.
//!
//! MIDI Time Code carries labels in two messages (MIDI 1.0, MIDI Time Code). A full message carries
//! one at once. A quarter frame carries four bits of one, and eight quarter frames with the pieces 0 to
//! 7 carry the whole, in reverse order if the tape moves backward. The reader takes one byte at a
//! time, passes over every other message, and gives each label with its direction and the place of
//! the byte that completes it, or the first fault of an address that is no label.
//!
//! What this crate promises:
//! - What `MtcReader::byte` answers of one byte after another are exactly the events of the list of
//!   bytes (`specs/Events.antt`, `events_in`), without keeping the bytes (`specs/StandsFor.antt`,
//!   clause `gives`). `MtcReader::take` takes bytes up to the next event at once, by the same clause.
//! - Real-time bytes, wherever they come, change the places of events and nothing else of them;
//!   events stay whatever bytes come later; the messages of a label are read as that label (`laws`).
//! - Bytes are spelled messages with other bytes between, in one way alone, and their events are what
//!   these messages carry (`specs/Spelled.antt`, `AreMessages`, `carried_by`).
//! - `push_mtc_text` and `mtc_end_text` give the lines of a report byte for byte (`specs/Texts.antt`).
//!
//! Read `reader`, `current`, `message`, `eight`, `row`, `address`, `event` and `texts`, in this order,
//! and `specs/Messages.antt`, `Events.antt` and `Spelled.antt` beside them. Nothing here allocates or fails.
#![tactic(auto)]

mod address;
mod current;
mod eight;
mod event;
pub mod laws;
mod message;
mod reader;
mod row;
mod texts;

pub use event::MtcEvent;
pub use reader::MtcReader;
pub use texts::{mtc_end_text, push_mtc_text};
