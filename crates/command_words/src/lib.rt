//! The command and the words after it, as `clap` reads them.
//!
//! A command line of the toolkit has no flags: its first word is the command, and the others are
//! values, as many as there are. `clap` gives the first as a required positional argument and the
//! others as one of any number of values. Words that begin with a dash are for the caller to refuse
//! beforehand.
//!
//! What this crate promises: of words without a dash in front, the first is the command and the
//! others are the values, each as it was given and in order; and nothing fails but for lack of
//! memory (`specs/CommandLine.antt`).
//!
//! Read `command_line`.
#![tactic(auto)]

mod command_line;

pub use command_line::CommandLine;
