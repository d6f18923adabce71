//! The faults of the files that are read by what their bytes say: of a line file, and of a sound file.
//!
//! What this crate promises: each fault has a name, which notes print, and a byte place (`specs/Lines.antt`,
//! `specs/Sound.antt`); and these names are spelled letter by letter (`laws`).
//!
//! Read `lines` and `sound`. `line_file` and `wave_file` say which fault bytes have, and `tc_command` prints it.
#![tactic(auto)]

pub mod laws;
mod line_names;
mod lines;
mod sound;
mod sound_names;

pub use lines::LineFileFault;
pub use sound::WaveFault;
