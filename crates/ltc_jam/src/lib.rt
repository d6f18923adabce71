//! A clean recording of frames: linear time code written anew, in cells of one length.
//!
//! A recording that was damaged is read through a flywheel, which invents the frames that are missing
//! up to a limit. Here each frame that was heard or invented becomes the 80 cells of a word of its
//! label, in the direction in which it was played (SMPTE 12M, linear time code). A zero and a one come
//! before all of them, by which a reader locks. User bits are 0, and so are the flags except that of
//! drop-frame: what the input had in them is not kept.
//!
//! What this crate promises:
//! - `lead` and `frame_cells` give exactly the intervals of these cells (`specs/Cells.antt`,
//!   `intervals_of_lead` and `intervals_of_frame`).
//! - `word_of` is the word of a label, and `played_bits` its 80 bits in the order of time
//!   (`specs/Word.antt`). `ltc-make` writes the same words.
//! - From the lead and the frames, put one after another, each frame is read back, and nothing else
//!   (`laws`; `specs/Cells.antt`, `clean_events`).
//!
//! Read `word` and `cells`, in this order, and `specs/Word.antt` and `Cells.antt` beside them. `tc_top`
//! writes them to a file. Nothing here allocates or fails.
#![tactic(auto)]

mod cells;
pub mod laws;
mod word;

pub use cells::{frame_cells, lead};
pub use word::{played_bits, word_of};
