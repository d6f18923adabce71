//! Bridging dropouts: the frames of the words that were heard, and of those that were not.
//!
//! A word of linear time code is heard at the tick at which it ends, and its length is that of a
//! frame. If no word comes, the flywheel goes on at the pace and in the direction of the last one:
//! half a length after a frame should have been heard, that frame is due, and is invented. After
//! `limit` invented frames in a row the time code is gone until the next word. A word that goes on
//! from the one before it, after the frames invented in between, is joined to it. The rule is
//! this project's own.
//!
//! What this crate promises:
//! - `Flywheel::due`, `passed` and `heard` answer exactly (their clauses; `specs/Wheel.antt`).
//! - Called at rising ticks, `passed` until it gives none and then `heard` for a word, a flywheel gives
//!   the frames of the words so far (`specs/Frames.antt`, `frames`), without keeping the words
//!   (`specs/StandsFor.antt`, clause `stands`).
//! - Between two heard frames, and after the last, there are at most `limit` invented ones, with the steps
//!   1, 2 and so on, and the heard frames are exactly the words (`laws`; `specs/Marked.antt`).
//! - The frames up to a tick come first, whatever words are heard at it or later (`laws`).
//!
//! Read `heard`, `frame` and `wheel`, in this order, and `specs/Frames.antt` and `StandsFor.antt`
//! beside them. `quarter_frame` makes MIDI bytes of the frames. Nothing here allocates or fails.
#![tactic(auto)]

mod frame;
mod heard;
pub mod laws;
mod wheel;

pub use frame::Frame;
pub use heard::HeardWord;
pub use wheel::Flywheel;
