//! `labels`: a text of lines that say labels, and a line for each of them.
//!
//! What this crate promises, for all sources and sinks:
//! - `labels` writes for each line of its input what is answered to the label that it says, up to the first line that
//!   says none (`specs/Labels.antt`, over `label_text/specs/LabelText.antt` and `label_lines/specs/Answer.antt`). It is
//!   a command as any other (`is_lawful` of `Labels`).
//! - So a text is its lines (`specs/TextLines.antt`, `HasLines`): if each says a label, the output is the answer of
//!   each, a line a line (`AnswersTheLines`), and else the place of the first that says none is given (`laws`).
//! - `labels COUNT sum` writes one line at the end: how many frames the labels of all lines are together, and the label
//!   that they are without an end of the day (`specs/Sums.antt`, `SumsTheLines`); of a text with a line that says no
//!   label it writes nothing (`laws`).
//! - What is answered in one way is answered again in another as a third way answers the text
//!   (`specs/AnsweredAgain.antt`, `AreTogether`), and a label comes back from a count as fast or faster
//!   (`specs/ThereAndBack.antt`; `laws`).
//!
//! Read `labels`, `sums`, `sum_line` and `laws`, and the files of specs/ beside them.
#![tactic(auto)]

mod labels;
pub mod laws;
mod sum_line;
mod sums;

pub use labels::Labels;
pub use sums::Sum;
