//! Lines of text that say labels, and what is answered to each of them.
//!
//! A line says a label of a day: by its text, as `10:00:00:00`, by its number in the day, as `900000`, or by the
//! seconds since midnight at which its frame begins, with three decimals, as `36000.000`. What is answered is chosen
//! beforehand: the number, the label, a label further on or back, the way since a label, the seconds, or the label
//! that is shown then under another count.
//!
//! What this crate promises:
//! - `read_line` gives the label that a line says, and else the column of the first byte that does not fit, from 1
//!   (`specs/Line.antt`, `asked` and `wrong_column`, over `specs/Forms.antt`).
//! - `answer_line` gives the text that is answered, with its newline (`specs/Answer.antt`, `answer_line`).
//! - What is written of a label is read as that label again: its text, its number, and its seconds (`laws`).
//!
//! Read `timebase`, `forms`, `line`, `way` and `answer`, in this order, and the file of the same name in specs/ beside
//! it. Nothing here allocates or fails in any other way.
#![tactic(auto)]

mod answer;
mod forms;
pub mod laws;
mod line;
mod timebase;
mod way;

pub use answer::answer_line;
pub use forms::{DROP_FORM, FORMS, LABEL_FORM};
pub use line::{read_line, wrong_column};
pub use timebase::Timebase;
pub use way::Way;
