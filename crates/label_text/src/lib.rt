//! A text of lines that say labels, byte by byte, in fixed room.
//!
//! A newline ends a line. A line has 64 bytes at most, and a text `MAX_LINES` lines; after the last newline there may
//! be a line that the end of the text ends.
//!
//! What this crate promises: `LabelReader` says of each byte what it completes: nothing, the label of a line, the
//! first fault by its line and column, or that there is one line too many (`specs/LabelText.antt`, `said_by`); and what
//! the end of the text says of the line before it (`at_end`). Bytes are read in their order (`laws`).
//!
//! Read `fault` and `reader`, with `specs/LabelText.antt` beside them, and `laws`. Nothing here allocates or fails in
//! any other way.
#![tactic(auto)]

mod fault;
pub mod laws;
mod reader;

pub use fault::LineFault;
pub use reader::{LabelReader, LineRead, MAX_LINE, MAX_LINES};
