//! The jobs that a command line of `tc` can name, with their values, and the faults that its words can have.
//!
//! A task is a job that is streamed, or a chase. The commands take the values of their jobs from here, so none of
//! them stands on the reading of words.
//!
//! What this crate promises: each value keeps the ranges of its words, whoever made it (the definitions of
//! `specs/`, as `IsStripe` of `Stripe.antt`), and gives back what it was made of.
//!
//! Read `fault`, `job`, `stripe`, `flight`, `jam`, `chase_run`, `label_run`, `column_run`, `line_stripe`, `load_run`,
//! `luma_run`, `pace`, `slicing`, `path_grid`, `path_slicing`, `track_path`, `sound_level`, `wave_slicing` and
//! `witness`, with `specs/` beside them; `usages`, the table that `help` prints; and `page_line`, `pages` and `values`, its pages.
//! How the words are read, and that help says it, is in `forms`. Nothing here allocates or fails.
//!
//! A later command joins in these places:
//! - its job, a variant of `Job` (`job`), whose doc line begins with its word;
//! - its row in `USAGES` (`usages`); the law `each_command_has_its_usage` of `tc_words` misses none;
//! - its rows in tables of `pages`, and those of `values`, which tools/make_help_values makes of the table of forms.
#![tactic(auto)]

mod chase_run;
mod column_run;
mod fault;
mod flight;
mod jam;
mod job;
mod label_run;
pub mod laws;
mod line_stripe;
mod load_run;
mod luma_run;
mod pace;
mod page_line;
pub mod pages;
mod path_grid;
mod path_slicing;
mod slicing;
mod sound_level;
mod stripe;
mod track_path;
pub mod usages;
pub mod values;
mod wave_slicing;
mod witness;

pub use chase_run::{ChaseRun, MAX_SLIP};
pub use column_run::ColumnRun;
pub use fault::WordsFault;
pub use flight::Flight;
pub use jam::Jam;
pub use job::{Job, Task};
pub use label_run::LabelRun;
pub use line_stripe::LineStripe;
pub use load_run::{LoadRun, MAX_WORDS};
pub use luma_run::LumaRun;
pub use page_line::PageLine;
pub use path_grid::{grid_for, step_ticks};
pub use path_slicing::PathSlicing;
pub use slicing::{MAX_FINENESS, MAX_LEVEL, Slicing};
pub use sound_level::SoundLevel;
pub use stripe::{MAX_FRAMES, Stripe};
pub use track_path::TrackPath;
pub use wave_slicing::WaveSlicing;
pub use witness::Witness;
