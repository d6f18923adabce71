//! From sound to words: if the noise stays below a margin, each word of a tape is read, at its place,
//! and nothing else.
//!
//! A tape that is played has transitions at certain moments. Its sound, without noise, goes over from
//! side to side some time behind each of them: an amplifier is slow, a head is wide. Noise moves the
//! crossing of the threshold, and moves it no further than the sound takes from a low bound, which the
//! noise can lift to the threshold, to a high one, which it can press down to it. So each transition is
//! found late, by a delay at most, and a cell that lasts long beside the delay keeps its bit.
//!
//! What this crate promises, all of it by laws:
//! - The cells of a steady tape, as they are found, keep the tolerance, and have the bits of the tape
//!   (`specs/Late.antt`, `IsSteady` and `AreFoundAs`). A cell has to outlast a number of drifts and of
//!   delays together, so that steadiness and delay trade against each other (`Outlasts`). If nothing
//!   drifts by more than a hundredth, 40 delays are enough under the normal tolerance, 28 under the worn
//!   and 11 under the rough one; 38, 27 and 10 are not. Under the rough one 12 drifts and 9 delays are
//!   enough from a lock on, and behind four cells of a tape without drift 47 delays in eight cells
//!   (`rough_laws`).
//! - Of a sound with noise each crossing comes within the delay of its own moment, and there are no
//!   others (`specs/Margin.antt`, `GoesOverAt` and `ComeWithin`), at a threshold that is fixed or follows
//!   the level, at each fineness. Threshold and noise may be given part by part (`specs/Ramps.antt`).
//! - Of a sound with a margin (`specs/Heard.antt`, `HasMargin`) the events are the words of the tape, each
//!   on time (`specs/OnTime.antt`, `told` and `AreOnTime`), also behind a silence. A part of a sound
//!   between damage is found (`specs/Part.antt`, `FindThePart`), under the rough tolerance behind even
//!   ones (`FindThePartBehindOnes`). If the sound ends while it goes over for the last time, at most
//!   that crossing is missing (`HasMarginToItsEnd`).
//! - Sound that is made of a steady tape has a margin (`specs/Made.antt`).
//! - Each of these premises follows from numbers alone (`number_laws`).
//!
//! Read `specs/Late.antt`, `Margin`, `Ramps`, `Heard`, `OnTime`, `EvenTape`, `Part` and `Made`, in this
//! order, and `laws`, `rough_laws` and `number_laws` beside them. Nothing here runs, and no law
//! says how much noise a recording has.
#![tactic(auto)]

pub mod laws;
pub mod number_laws;
pub mod rough_laws;
