//! The lines of the reports of a recording.
//!
//! A report has a line for each event of a recording, or for each frame of a flywheel, and a last line
//! of counts. Each line is a text of at most 128 bytes.
//!
//! What this crate promises:
//! - `event_text`, `firm_event_text` and `read_end_text` give the lines of a reading byte for byte
//!   (`specs/Texts.antt`).
//! - `frame_text` and `fly_end_text` give those of a flywheel's frames (`specs/FrameTexts.antt`).
//!
//! Read `event`, `frame` and `summary`. The lines are made of the pieces of `line_text`;
//! `interval_commands` and `frame_commands` print them. Nothing here allocates or fails.
#![tactic(auto)]

mod event;
mod frame;
mod summary;

pub use event::{event_text, firm_event_text};
pub use frame::frame_text;
pub use summary::{fly_end_text, read_end_text};
