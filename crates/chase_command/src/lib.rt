//! `chase`: the trace of a transport that follows the master of a script.
//!
//! It is no stream: the whole script is read into memory and judged, and only then is its trace written.
//! So it may stop for lack of memory too, and what is refused is a row and a column.
//!
//! What this crate promises, for all sources and sinks:
//! - A chase answers by its status: what was pulled and written, and the note (`specs/Chase.antt`,
//!   `IsChaseAnswer`). Nothing is written before the whole script was read and each row was judged.
//! - If no call fails, the whole input leaves one status, lack of memory aside (clause `status`).
//!
//! Read `chasing`, `trace` and `stop`.
#![tactic(auto)]

mod chasing;
pub mod laws;
mod stop;
mod trace;

pub use chasing::{MAX_SCRIPT, chase};
