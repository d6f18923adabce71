//! What a flywheel gives.

use tc_address::{Direction, Label};

/// A frame that was heard or invented, or the end of invention. Its tick is that of its end.
#[derive(Clone, Copy)]
pub enum Frame {
    /// A word was heard.
    Heard {
        label: Label,
        direction: Direction,
        /// Whether it goes on from the word before, after the frames invented in between.
        joined: bool,
        tick: u64,
    },
    /// No word was heard when one was due, and its label was taken from the word before.
    Invented {
        label: Label,
        direction: Direction,
        /// How many labels it lies after the word before, from 1 to the limit.
        step: u32,
        tick: u64,
    },
    /// More frames were due than may be invented: nothing follows before the next word.
    Gone {
        tick: u64,
    },
}
