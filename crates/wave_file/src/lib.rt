//! The sound file: the samples of one track, as they come.
//!
//! A sound file is RIFF/WAVE (BWF among it, EBU Tech 3285), or RF64 or BW64 (ITU-R BS.2088), which have
//! sizes of 64 bits. Behind its first twelve bytes come chunks: four letters, a size, and that number of bytes.
//! `fmt ` gives the format, `data` the samples. They are read piece by piece, in fixed memory.
//!
//! What this crate promises:
//! - What bytes say is one value (`specs/Wave.antt`, `reading_of`): the format, the samples of a track,
//!   whether the bytes are good, refused or past the limit, and whether the input may end there. It is
//!   defined over the whole text, piece after piece; a sample is the upper 16 bits of its value
//!   (`specs/Format.antt`, `sample_in`).
//! - A `WaveDecoder` has given the samples of the bytes that it took, and answers a fault or the limit exactly
//!   when they have it (`specs/StandsFor.antt`, `StandsFor` and `StopsAt`). It takes all whole blocks at once for
//!   which there is room, and none of a piece that is not whole: these bytes come again with more behind them
//!   (`IsCut`). A fault and the limit hold for all bytes that begin with these.
//! - Bytes that a decoder took are good, and their format and samples are those that it gave
//!   (`WaveDecoder::format`, clause `told`; `laws`).
//! - A file that was made of samples is read as these, whatever other chunks it has, in each size of samples
//!   (`specs/Grammar.antt`, `file_of` and `long_file_of`; `laws::a_file_is_read_as_it_was_written`).
//!
//! Read `format`, `sample`, `chunk`, `stage` and `decoder`, in this order, and `specs/Grammar.antt`
//! and `Wave.antt` beside them. Nothing here allocates.
#![tactic(auto)]

mod chunk;
mod decoder;
mod format;
pub mod laws;
mod sample;
mod stage;

pub use decoder::{Taken, WaveDecoder};
pub use format::{Asked, MAX_RATE, WaveFormat};
pub use stage::{MAX_BYTES, MAX_SAMPLES};
