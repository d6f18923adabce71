//! The script of a chase, and the trace of what comes of it.
//!
//! A script is a text of comma-separated values. A row says what comes in one frame: a command and its
//! target, what the master reads and in which direction it moves, and how far the transport slips. The
//! chase and its transport work it row by row, and the trace has a line for each. Both forms are this
//! project's own.
//!
//! What this crate promises:
//! - `script_rows` reads exactly the rows of a script's records, and refuses a script at its first
//!   refused record, with the least refused column (`specs/Script.antt`, `script_in`). Lack of memory
//!   is a fault of its own.
//! - `TraceLines` gives the lines of the trace byte for byte, in order, and the last line after them
//!   (`specs/TraceText.antt`, `trace_text`). What is traced is the closed loop of `chase_core`.
//! - The trace keeps its lock: while the master moves steadily, no command comes and the transport keeps
//!   its slip bound, a locked chase stays within half a frame, and pulling ends (`specs/Lock.antt`,
//!   `KeepsItsLock`).
//!
//! Read `column`, `fault`, `row`, `slip` and `script`, in this order, with `specs/Script.antt` beside them,
//! and then `texts` and `trace_lines` with `specs/TraceText.antt`.
#![tactic(auto)]

mod column;
mod fault;
mod row;
mod script;
mod slip;
mod texts;
mod trace_lines;

pub use column::Column;
pub use fault::{RowFault, ScriptFault};
pub use row::ScriptRow;
pub use script::{Script, script_rows};
pub use texts::{step_end_text, step_text};
pub use trace_lines::TraceLines;
