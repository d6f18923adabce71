//! Code that is made: bits to the intervals of their cells, and intervals to the samples of a sound.
//!
//! A shaper gives each bit a cell, whose length may move from cell to cell, and a cell has one interval or
//! two. An interval of so many ticks is as many samples of a sound, in turn above and below zero.
//!
//! What this crate promises:
//! - `put_bits` writes the intervals of the cells of bits, and the shaper goes on behind them
//!   (`specs/Bits.antt`, `GoesOnBehind`; clause `cells`).
//! - A `SoundMaker` that is given intervals, piece by piece, writes the samples of all intervals so far, each
//!   once and in order, in whatever pieces they come and go (`specs/Sound.antt`, `StandsFor`; clause `goes`).
//!
//! Read `bits` and `sound`, in this order, and `specs/Bits.antt` and `Sound.antt` beside them. `tc_c` makes
//! functions for C of it. Nothing here allocates or fails.
#![tactic(auto)]

mod bits;
mod sound;

pub use bits::put_bits;
pub use sound::{MAX_LEVEL, SoundMaker};
