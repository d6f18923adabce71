//! The limits that more than one crate keeps.
//!
//! What shows a limit to a user, what reads a file within it and what a definition says of it read the same
//! number here. A limit that one crate alone keeps is in that crate.
//!
//! What this crate promises: each limit has the value that `laws` spells.
//!
//! Read `recording` and `sound_file`, then `laws`. The crates of intervals, sound and words use it. Nothing
//! here is computed.
#![tactic(auto)]

pub mod laws;
mod recording;
mod sound_file;

pub use recording::{MAX_INTERVAL, MAX_INTERVALS, MAX_TICK_RATE};
pub use sound_file::MAX_TRACKS;
