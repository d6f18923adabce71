//! The commands that read what is no interval file: samples of sound (`pcm-ltc`), sound files (`wav-ltc`),
//! MIDI bytes (`mtc-read`), the lines of vertical interval time code (`vitc-read`) and the rows of a picture that
//! they are in (`luma-vitc`).
//!
//! What this crate promises, for all sources and sinks:
//! - `pcm-ltc` writes the interval file of the distances between the crossings of the samples
//!   (`specs/PcmLtc.antt`), `wav-ltc` the same of a track of a sound file, whose first interval runs from
//!   the first sample (`specs/WavLtc.antt`), and with `path` both that of the cells of the best path through the
//!   sound (`specs/PcmPath.antt`, `specs/WavPath.antt`), the first two in pieces as they pass if the words say `live`,
//!   `mtc-read` a line for each label in the bytes (`specs/MtcRead.antt`), and
//!   `vitc-read` a line for each field of a line file (`specs/VitcRead.antt`).
//! - `luma-vitc` writes the line file of what the fields of a picture say, row by row (`specs/LumaVitc.antt`).
//! - What was sent is what `mtc-read` reads (`ReadsWhatWasSent`). A line of `vitc-read` says whose lines the
//!   lines of its field are (`ReadsTheFields`). The intervals of `pcm-ltc` and `wav-ltc` give the crossings of
//!   all samples (`SlicesTheSound`, `SlicesTheTrack`).
//! - What is written of a best path is a file that is read (`specs/PathFile.antt`, `path_laws`).
//! - Each is a command as any other (`laws`): what it writes comes first, there is one output of an input,
//!   and what bytes show stays.
//!
//! The four commands of sound are one engine (`listening`): a container makes samples of bytes (`raw_samples`,
//! `sound_file`), and a listener makes intervals of samples (`sliced`, `path_sound`). Read `brought`, `container`,
//! `listener` and `listening`, in this order, then these four, and then `pcm_ltc`, `pcm_path`, `wav_ltc` and
//! `wav_path`.
//! `mtc_read`, `vitc_read` and `luma_vitc` stand each by itself.
#![tactic(auto)]

mod brought;
mod container;
pub mod laws;
mod listener;
mod listening;
mod luma_lines;
mod luma_vitc;
mod mtc_read;
pub mod path_laws;
mod path_sound;
mod pcm_ltc;
mod pcm_path;
mod raw_samples;
mod sliced;
mod sound_file;
mod spelling;
mod vitc_read;
mod wav_ltc;
mod wav_path;

pub use luma_lines::LINE_LENGTH;
pub use luma_vitc::LumaVitc;
pub use mtc_read::{MAX_BYTES, MtcRead};
pub use pcm_ltc::{MAX_SAMPLES, PcmLtc};
pub use pcm_path::PcmPath;
pub use vitc_read::VitcRead;
pub use wav_ltc::WavLtc;
pub use wav_path::{MAX_PATH_SAMPLES, WavPath};
