//! `labels` with columns: a text passes through, and what is answered stands in the place of the labels in some columns
//! of its lines.
//!
//! What this crate promises, for all sources and sinks:
//! - `Columns` writes each line of its input with what is answered in the columns that are meant, and all other
//!   bytes as they are. Nothing is refused (`specs/AnsweredText.antt`, `answered_text`, over `label_columns`).
//! - Where a length is asked, the length from the label in the first of the columns stands in the place of that in the
//!   last (`specs/Written.antt`, `with_length`).
//! - In a column that is meant the answer is the one of `label_lines`, as `labels` gives it to a line that is this
//!   column; where it says no label, it stays as it is (`label_columns/specs/Columns.antt`, `answered_field`).
//!
//! Read `columns`, `lengths`, `answering` and `laws`, and the files of specs/ beside them.
#![tactic(auto)]

mod answering;
mod columns;
pub mod laws;
mod lengths;

pub use columns::{Columns, MAX_TEXT};
