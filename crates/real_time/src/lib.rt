//! What the labels of a count say of real time: when a frame begins, and which frame is then shown elsewhere.
//!
//! A frame rate is 24, 25 or 30 frames a second, or one of 24 and 30 that is pulled down by 1000/1001, as film and
//! colour television run (SMPTE 12M, "NTSC time" and "drop frame compensated"). Frame n of a day begins n frame periods
//! after midnight. Both are fractions of whole numbers here, and nothing is rounded but where it is said.
//!
//! What this crate promises:
//! - `milliseconds` gives the whole millisecond that lies nearest to the beginning of a frame, and `frame_of` the frame
//!   whose beginning lies nearest to a millisecond (`specs/Moment.antt`, `IsNearest`).
//! - `frame_shown` gives the frame of another rate that is shown when a frame begins, and how much of it has passed
//!   (`specs/Moment.antt`, `IsShown`).
//! - Each of these is one number; a frame comes back from its millisecond, and from the frame of a rate that is as fast
//!   or faster (`laws`).
//!
//! Read `rate`, `moment` and `laws`, in this order, and the files of specs/ beside them. Nothing here
//! allocates or fails.
#![tactic(auto)]

pub mod laws;
mod moment;
mod rate;

pub use moment::{MAX_FRAMES, MAX_MILLISECONDS, Shown, frame_of, frame_shown, milliseconds};
pub use rate::FrameRate;
