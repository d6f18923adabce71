//! MIDI Time Code: the messages that carry the frames of a flywheel.
//!
//! A quarter frame message carries four bits of an address, which is hours, minutes, seconds and
//! frames with its count. Eight of them carry the whole address and span two frames, in the order of
//! their pieces if the tape moves forward, and in the reverse order if it moves backward. A full
//! message carries an address at once (MIDI 1.0, MIDI Time Code). A run of frames, which ends when
//! the time code is gone or jumps, begins with a full message. Where a run begins, and that both
//! frames of a pair carry the earlier address of the two, also backward, is this project's own.
//! MIDI Time Code has no mark for an invented frame.
//!
//! What this crate promises:
//! - `quarter` and `full` give exactly the messages of a label (`specs/Message.antt`, `quarter_of` and
//!   `full_of`).
//! - What `QuarterWriter::frame` writes of one frame after another is the MIDI Time Code of the frames
//!   (`specs/Runs.antt`, `mtc_of`), without keeping them (`specs/StandsFor.antt`, clause `stands`). It
//!   comes first, whatever frames follow (`laws`).
//! - Eight quarter frames of a pair carry its earlier label in either direction, and what is sent of the
//!   frames of words is read by mtc_reader as these frames (`specs/ReadAgain.antt`, `read_of`; `laws`).
//!
//! Read `message`, `half` and `writer`, in this order, and `specs/Message.antt`, `Runs.antt`,
//! `StandsFor.antt` and `ReadAgain.antt` beside them. Nothing here allocates or fails.
#![tactic(auto)]

mod half;
pub mod laws;
mod message;
mod writer;

pub use message::{full, quarter};
pub use writer::QuarterWriter;
