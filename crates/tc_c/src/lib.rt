//! Readers, a flywheel and MIDI Time Code as functions for C, and words, their bits, lines and labels.
//!
//! A program in C gives memory for an object, settings in numbers and samples, intervals, words or bytes, and
//! gets events or frames in numbers. All that an object keeps lies in the caller's memory, at one place and of one
//! size. No call allocates, waits, prints or ends the process. `include/tc.h` names these functions, with
//! their contracts in words.
//!
//! What this crate promises:
//! - `tc_reader_write_s16_` takes samples from the front, and writes the events that they bring: they are
//!   those of all samples so far, each once and in order, in whatever pieces the samples come
//!   (`specs/Write.antt`, `Goes`). Behind the events that it writes it changes none, and where it leaves
//!   room for two it has taken all samples, unless the reader is full.
//! - `tc_tape_write_` does so with intervals, where room for three is left, or for four of consecutive words
//!   (`TapeGoes`, `room_of`). It takes no number that is no interval, and says where one comes. With what
//!   `tc_tape_last_` writes, the events are those of the tape.
//! - `tc_reader_told_` and `tc_tape_told_` give the tick up to which all words are told: one that is told later
//!   ends there or behind it, whatever follows.
//! - `tc_slicer_write_s16_` takes samples and writes the intervals of all samples so far, each once and in order, in
//!   whatever pieces the samples come and in whatever room (`sound_reader`, `Gives`). They are what `tc_tape_write_`
//!   takes.
//! - `tc_wheel_hear_` and `tc_wheel_pass_` write the frames of all words so far, up to the latest tick
//!   (`WheelGoes`). A tick that falls is refused.
//! - `tc_mtc_writer_write_` writes what the MIDI Time Code of the frames so far grows by (`MtcWrites`), and
//!   `tc_mtc_reader_read_` the labels that bytes complete, in whatever pieces they come (`MtcGoes`).
//! - `tc_maker_bits_` writes the intervals of the cells of bits (`code_maker`, `GoesOnBehind`), and
//!   `tc_sound_write_` the samples of all intervals so far, in whatever pieces they come and go (`SoundMakes`).
//! - `tc_reader_start_`, `tc_slicer_start_`, `tc_tape_start_` and `tc_wheel_start_` take the settings that the numbers
//!   mean, and say whether they mean some (`specs/CSettings.antt`, `Means`, `MeansSlicer`, `MeansTape`). Where they do
//!   not, nothing changes.
//! - `tc_reader_at`, `tc_slicer_at`, `tc_tape_at`, `tc_wheel_at`, `tc_mtc_writer_at`, `tc_mtc_reader_at`,
//!   `tc_maker_at` and `tc_sound_at` make an object in the room that they are given (`specs/Opening.antt`).
//! - The numbers of an event are those of `specs/CEvent.antt`, `c_event` and `c_told`, and those of a frame
//!   `c_frame` of `specs/CFrame.antt`; numbers mean one settings, one label, one word and one frame at most
//!   (`laws`). `number_laws` writes them out.
//! - `tc_word_bits` gives the bits that spell the word which the numbers mean (`specs/CWord.antt`,
//!   `MeansWord`), and `tc_bits_word` the word that bits spell, or the number of their first fault.
//! - `tc_line_read` gives what a line of vertical interval time code says, of its runs: its word, or its first fault
//!   (`specs/CLine.antt`, `c_line`). `tc_line_runs` writes the runs of the line of a word, for exactly the numbers
//!   that mean one (`MeansLineWord`), and they are read as that word (`laws`).
//! - `tc_label_number`, `tc_label_at` and `tc_label_advance` are the numbers, labels and steps of a day, for
//!   exactly the numbers that mean a label (`specs/CLabel.antt`, `MeansLabel`).
//!
//! What a caller in C has to keep stands as `requires` and in the header: pointers to as many elements as
//! they are said to have, which do not overlap, and one call at a time on one object.
//!
//! Read `event`, `settings`, `kept`, `write`, `handle`, `opening` and `exports`, in this order; the files of a
//! slicer, `slicer_settings` first; of a tape `told`, `tape_settings` and the other files of its name, of a
//! flywheel `heard`, `frame`, `given` and the files of its name, and of MIDI Time Code `mtc_event` and the files of
//! its name; then the files of a maker and of a sound, and `label`, `label_exports`, `word`, `word_exports`,
//! `line`, `line_runs` and `line_exports`, and the files of specs/ beside them. `sound_reader`, `tape_reader`,
//! `frame_wheel`, `quarter_frame`, `mtc_reader`, `code_maker`, `ltc_word`, `vitc_reader` and `tc_address` are what
//! is called.
#![tactic(auto)]

mod event;
mod exports;
mod frame;
mod given;
mod handle;
mod heard;
mod kept;
mod label;
mod label_exports;
pub mod laws;
mod line;
mod line_exports;
mod line_runs;
mod maker_exports;
mod maker_handle;
mod maker_kept;
mod maker_opening;
mod mtc_event;
mod mtc_read;
mod mtc_reader_exports;
mod mtc_reader_handle;
mod mtc_reader_kept;
mod mtc_reader_opening;
mod mtc_write;
mod mtc_writer_exports;
mod mtc_writer_handle;
mod mtc_writer_kept;
mod mtc_writer_opening;
pub mod number_laws;
mod opening;
mod settings;
mod slicer_exports;
mod slicer_handle;
mod slicer_kept;
mod slicer_opening;
mod slicer_settings;
mod sound_exports;
mod sound_handle;
mod sound_kept;
mod sound_opening;
mod tape_exports;
mod tape_handle;
mod tape_kept;
mod tape_opening;
mod tape_settings;
mod tape_write;
mod told;
mod wheel_exports;
mod wheel_handle;
mod wheel_kept;
mod wheel_opening;
mod wheel_write;
mod word;
mod word_exports;
mod write;

pub use event::TcEvent;
pub use frame::TcFrame;
pub use given::TcGiven;
pub use handle::TcReader;
pub use heard::TcHeard;
pub use kept::KeptReader;
pub use label::TcLabel;
pub use line::TcLine;
pub use maker_handle::TcMaker;
pub use maker_kept::KeptMaker;
pub use mtc_event::TcMtcEvent;
pub use mtc_reader_handle::TcMtcReader;
pub use mtc_reader_kept::KeptMtcReader;
pub use mtc_writer_handle::TcMtcWriter;
pub use mtc_writer_kept::KeptMtcWriter;
pub use settings::TcSettings;
pub use slicer_handle::TcSlicer;
pub use slicer_kept::KeptSlicer;
pub use slicer_settings::TcSlicerSettings;
pub use sound_exports::TcSoundTaken;
pub use sound_handle::TcSound;
pub use sound_kept::KeptSound;
pub use tape_handle::TcTape;
pub use tape_kept::KeptTape;
pub use tape_settings::TcTapeSettings;
pub use tape_write::TcTapeTaken;
pub use wheel_handle::TcWheel;
pub use wheel_kept::KeptWheel;
pub use word::{TcBits, TcWord};
pub use write::TcTaken;
