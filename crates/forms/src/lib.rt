//! How each command is typed, and the jobs that its words name.
//!
//! A form is the word of a command and, in order, the slots that the words behind it fall into: a number of a range, a
//! label, one of some words. A command that may be typed in several ways has a form for each, and the words that tell
//! a way from the others are its marks.
//!
//! What this crate promises:
//! - `form_of` answers the first form of the command whose marks stand in the words (`specs/Form.antt`, `form_of`).
//! - `takes` says whether so many words may stand behind it.
//! - `read` answers the values of the words, from the left, or the place of the first one that has none
//!   (`specs/Reading.antt`, `read`).
//! - `made` makes the task of a command and its values (`specs/Made.antt`, `task_in`).
//! - What help prints of a value is made of the slot that takes it (`specs/Help.antt`; `laws`).
//!
//! Read `value`, `choices`, `slot` and `form`, then `table`, which has a row for each way of each command; `number`
//! and `reading`, with `specs/` beside them; `held`, how values are taken from their list; and `made`, with
//! `made_labels`, `made_sound` and `made_stripe`; and `names`, what help calls the values. The jobs themselves are in
//! `tc_job`. Nothing here allocates or fails.
//!
//! A later command joins in these places, once it is in `tc_job`: its row in `FORMS` with one in `NAMES`, its variant
//! of `Command`, and how its job is made of its values, in `made` and `specs/Made.antt`.
#![tactic(auto)]

pub mod choices;
mod command;
mod form;
mod held;
pub mod laws;
mod made;
mod made_labels;
mod made_sound;
mod made_stripe;
mod named;
pub mod names;
mod number;
mod reading;
mod slot;
pub mod table;
mod value;

pub use command::Command;
pub use form::Form;
pub use named::task_of;
pub use reading::MAX_VALUES;
pub use slot::{Bound, Need, Slot};
pub use value::{Asked, Said, Value};
