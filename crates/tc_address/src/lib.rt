//! Frame addresses: the labels of a day of timecode, their numbers, steps and texts.
//!
//! A label is hours, minutes, seconds and frames together with the count that it belongs to: 24, 25
//! or 30 frames a second, or 30 with drop-frame counting, which drops the frame numbers 0 and 1
//! of each minute that is no multiple of ten (SMPTE 12M, "time address" and "drop frame"). The number
//! of a label is how many labels of its count come before it in the day. A subframe is an eightieth
//! of a frame.
//!
//! What this crate promises:
//! - `Label::new` makes exactly the labels of a count, and else names the first fault, in the order
//!   of `LabelFault` (`specs/Label.antt`, `IsLabel` and `IsFirstFault`).
//! - `number`, `label_at`, `advance`, `day_labels` and `day_subframes` are those of the list of the
//!   day's labels (`specs/Label.antt`, `labels`; `specs/Numbering.antt`, `number_of` and `step`),
//!   for every label, number and `i64`.
//! - `shortest` gives the one shortest way between two places of a circle, forward at half of it
//!   (`specs/Circle.antt`, `IsShortest`).
//! - `text` writes the text of a label. `read_text` reads exactly these texts, and else names the
//!   first fault (`specs/Spelling.antt`, `text_of` and `IsFirstTextFault`).
//! - Within a day number and label are inverse, steps add up, one way is shortest, and a text has one
//!   label (`laws`).
//!
//! Read `system`, `count`, `label`, `numbering`, `drop_frame`, `circle`, `digits` and `spelling`, in this
//! order, with the file of the same name in specs/ beside it (that of `system` is `specs/Count.antt`, that of
//! `digits` is `specs/Spelling.antt`). Nothing here allocates, and no call fails in any other way.
#![tactic(auto)]

mod circle;
mod count;
mod digits;
mod direction;
mod drop_frame;
mod label;
pub mod laws;
mod numbering;
mod spelling;
mod system;

pub use circle::shortest;
pub use count::{Count, system_of};
pub use digits::two_digits;
pub use direction::Direction;
pub use label::{Label, LabelFault};
pub use numbering::{advance, day_labels, day_subframes, label_at, number};
pub use spelling::{TextFault, read_text, text};
pub use system::{System, rate};
