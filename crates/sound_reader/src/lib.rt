//! From samples to events, by a slicer and a reader of intervals in one, and from samples to intervals.
//!
//! Samples come in pieces of any length, as a sound card or a file gives them. The slicer finds the
//! crossings among them, and the reader the words, refused words and breaks of the intervals between. What
//! a reader keeps has one size, whatever it was given, and lies in one place.
//!
//! What this crate promises:
//! - A `SoundReader` that is given samples, piece by piece, gives the events of all samples so far, each
//!   once and in order, in whatever pieces they come (`specs/Sound.antt`, `StandsFor` and `Brings`; clause
//!   `brings` of `read`).
//! - If it gives no event it has taken all samples, and no interval waits, unless it is full (`all`).
//! - If it gives events it has taken no sample behind the one that brought them (`latest`). Whole pieces of a
//!   distance are found with the sample that ends it, or with the last that was given.
//! - All that is told later ends at the tick that `told_until` gives, or behind it (clause `later`).
//! - So they are the events of the intervals of the samples, under the settings that it was made with
//!   (`laws::what_is_given_are_the_events_of_the_samples`).
//! - A `SoundSlicer` gives the intervals themselves, of all samples so far, each once and in order, in whatever
//!   pieces the samples come and in whatever room (`specs/Slicer.antt`, `StandsFor` and `Gives`; clause `goes` of
//!   `write`). Where it leaves room it has taken all samples, and no interval waits, unless it is full (`settled`,
//!   `all`).
//!
//! Read `settings`, `waiting` and `reader`, in this order, and `specs/Settings.antt`, `Waiting.antt` and
//! `Sound.antt` beside them; then `slicer_settings` and `slicer`, and `specs/Slicer.antt`. `tc_c` makes functions for C
//! of both. Nothing here allocates or fails.
#![tactic(auto)]

pub mod laws;
mod reader;
mod settings;
mod slicer;
mod slicer_settings;
mod waiting;

pub use reader::{MAX_SAMPLES, SoundReader};
pub use settings::SoundSettings;
pub use slicer::SoundSlicer;
pub use slicer_settings::SlicerSettings;
