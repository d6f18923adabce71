//! Slicing sound: the intervals between the crossings of a threshold.
//!
//! A recording of linear time code as sound is a list of samples of 16 bits. When it goes over from
//! the high side of a threshold to the low one, or back, it has a crossing; the distances of
//! neighbouring crossings are the intervals of the recording. With a fineness of one they are counted
//! in whole samples. A finer slicer places each crossing on the straight line from sample to sample,
//! `fineness` ticks a sample, which keeps the shape of cells that have few samples. A threshold is
//! fixed, or follows the level of the sound, at a half or a quarter of its height. Sums of the latest
//! samples may be sliced in place of the samples, against hiss. The first distance begins at the first
//! crossing, or at tick 0, the place of the first sample. The finer form, the thresholds that follow
//! and the sums are this project's own.
//!
//! What this crate promises:
//! - `Slicer::sample` gives exactly the distances of the crossings of the sums of the samples so far
//!   (`specs/Distance.antt`, `distances_by`, and `specs/Sums.antt`, `sums`), and keeps but the latest of
//!   the samples (`specs/StandsFor.antt`, clause `stands`). They come first, whatever samples follow
//!   (`laws`). Sums of one are the samples.
//! - `Slicer::run_samples` takes many samples, and `Slicer::run` the whole samples of bytes
//!   (`specs/Samples.antt`, `samples_of`), up to the first that brings a distance, or else all of them.
//! - `pieces` writes a distance as intervals of a length and a rest (`specs/Distance.antt`, `pieces_in`).
//! - `Slicer::intervals_of_samples` and `intervals_of_bytes` give the intervals at a `Pace`: of a distance
//!   that has ended, or, as it passes, each whole piece as soon as no crossing can end it any more
//!   (`specs/Pace.antt`, `intervals_at`). Joined again the pieces are the distances, and if none is
//!   longer than a piece the intervals are the same at both (`laws`).
//! - Moments rise, from crossing to crossing the ticks differ from those of whole samples by less than
//!   a sample, and runs of samples are sliced into their lengths (`laws`).
//! - The intervals give the crossings: which these are, that neighbours lie on opposite sides, that all ticks
//!   between them are covered, and that the sign of the samples changes nothing (`specs/Covered.antt`,
//!   `TellTheCrossings`; `laws`).
//! - Sound that is made of intervals is sliced into them again (`specs/Sound.antt`, `sound`; `laws`).
//!
//! Read `start`, `samples`, `window`, `quiet`, `threshold`, `level`, `sizes`, `side`, `crossing`, `still`, `finder`,
//! `slicer`, `interval`, `pace` and `paced`, in this order, and `specs/Sums.antt`, `Level.antt`, `Side.antt`,
//! `Crossing.antt`, `Distance.antt` and `Pace.antt` beside them. Nothing here allocates or fails.
#![tactic(auto)]

mod crossing;
mod finder;
mod interval;
pub mod laws;
mod level;
mod pace;
mod paced;
mod quiet;
mod samples;
mod side;
mod sizes;
mod slicer;
mod start;
mod still;
mod threshold;
mod window;

pub use interval::{Intervals, pieces};
pub use pace::Pace;
pub use side::Side;
pub use slicer::Slicer;
pub use start::Start;
pub use threshold::{MAX_THRESHOLD, Threshold};
pub use window::MAX_SMOOTH;
