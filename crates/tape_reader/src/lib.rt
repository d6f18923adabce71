//! From the intervals of a tape to events: a reader of all words, one that asks each for a witness, one of
//! consecutive words, or one of words that count on.
//!
//! Intervals come in pieces of any length, as a capture or a file gives them, in ticks. Under settings that
//! ask for no witness each word is told; under those that ask, one without a witness is told as alone; and of
//! consecutive words one without a witness is told too if the word that follows it on the tape joins it. Of
//! counted words one with which no other counts on is told as alone. What a reader keeps has one size, whatever
//! it was given, and lies in one place.
//!
//! What this crate promises:
//! - A `TapeReader` that is given intervals, piece by piece, tells the events of all intervals so far, each
//!   once and in order, in whatever pieces they come (`specs/Tape.antt`, `StandsFor` and `Brings`; clause
//!   `brings` of `read`). With what `last` tells they are the events of the list (clause `all` of `last`;
//!   `specs/Tape.antt`, `AreTapeEvents`).
//! - `told_until` says up to which tick all words are told: one that is told later ends there or behind it
//!   (clause `later`; `laws`).
//! - Where `read` tells nothing it has taken all intervals up to the first number that is none, unless it is
//!   full (clause `some`), and where it tells events it has taken none behind the one that brought them (`latest`).
//!
//! Read `settings`, `reader`, `reading_on` and `laws`, in this order, and `specs/Tape.antt` beside them. `tc_c` makes functions for C
//! of it. Nothing here allocates or fails.
#![tactic(auto)]

pub mod laws;
mod reader;
mod reading_on;
mod settings;

pub use reader::TapeReader;
pub use reading_on::is_interval;
pub use settings::TapeSettings;
