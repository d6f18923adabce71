//! The commands that follow the frames of a recording: the words that are heard in it, and those that a
//! flywheel invents between them. `ltc-fly` prints them, `ltc-spans` lists their spans, `ltc-mtc` sends them
//! as MIDI Time Code, `ltc-jam` records them anew, and `ltc-chase` has a transport follow them.
//!
//! What this crate promises, for all sources and sinks:
//! - Each command writes what its `FrameText` makes of the frames of the file's intervals, with at most so
//!   many invented ones in a row (`specs/OfFrames.antt`, over `interval_engine`).
//! - The lines of `ltc-fly` mark each frame that is invented (`specs/LtcFly.antt`); what `ltc-jam` writes is a
//!   clean recording, from which each frame is read, and nothing else (`specs/LtcJam.antt`); in the trace of
//!   `ltc-chase` each loss has its cause (`specs/LtcChase.antt`).
//! - What they make of frames comes first, whatever frames follow (`laws`).
//!
//! Read `frame_sink`, `flight`, `words`, and then `ltc_fly`, `ltc_spans`, `ltc_mtc`, `jam` and `ltc_chase`.
#![tactic(auto)]

mod flight;
mod frame_sink;
mod frames;
mod hearing;
mod jam;
pub mod laws;
mod ltc_chase;
mod ltc_fly;
mod ltc_mtc;
mod ltc_spans;
mod words;

pub use jam::LtcJam;
pub use ltc_chase::{LtcChase, MAX_FRAMES};
pub use ltc_fly::LtcFly;
pub use ltc_mtc::LtcMtc;
pub use ltc_spans::LtcSpans;
