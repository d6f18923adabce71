//! The columns of a line, and what is answered to the labels in some of them.
//!
//! A text has lines, and a line has columns, parted by blanks or by commas and semicolons. Where a column says a label,
//! as `label_lines` reads it, the answer takes its place; all other bytes stay as they are.
//!
//! What this crate promises:
//! - `field_length`, `column_in` and `fields_length` tell where fields end, which bytes of a field are its column, and
//!   where the ending of a line begins (`specs/Columns.antt`).
//! - `answer_column` gives what is answered to a column that says a label (`answer_to`).
//! - The parts of a text or of a line, one after another, are its bytes (`laws`, over `specs/Parts.antt`).
//!
//! Read `columns`, `fields` and `answer`, with specs/ beside them, and `laws`. The engine of `column_command` puts the
//! answers in their places. Nothing here allocates or fails in any other way.
#![tactic(auto)]

mod answer;
mod columns;
mod fields;
pub mod laws;

pub use answer::answer_column;
pub use columns::{Columns, MAX_COLUMN, MAX_COLUMN_LINE, Parting};
pub use fields::{column_in, columns_in, field_length, fields_length};
