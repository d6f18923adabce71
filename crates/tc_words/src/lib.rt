//! The command line of `tc`: which task its words name.
//!
//! The first word is the command, and the others are its values. Words are counted from 0, so the
//! command is word 0. No word begins with a dash: there are no flags.
//!
//! What this crate promises: `read_words` answers the task of the words, or else their first fault, in
//! the order of `WordsFault`, and lack of memory is an answer of its own (`specs/Words.antt`,
//! `answer_to`). How the words behind a command are read is said by `forms`, whose table has the form of each. And the
//! table of usages, which `help` prints, has a row for each command, whose form makes words that are taken
//! (`specs/Usages.antt`, `Forms.antt`; `laws`). The pages of help name exactly what is read (`specs/Pages.antt`).
//!
//! Read `words`, with `specs/Words.antt` beside it. The tasks themselves are in `tc_job`.
#![tactic(auto)]

pub mod laws;
mod words;

pub use words::read_words;
