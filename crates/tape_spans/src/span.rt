//! A frame that was heard, and a span of the tape. Read next: `gap`.

use tc_address::{Direction, Label};

/// A frame that was heard.
#[derive(Clone, Copy)]
pub struct Mark {
    pub label: Label,
    /// The way in which the tape moved.
    pub direction: Direction,
    /// The tick at which its word ended.
    pub tick: u64,
}

/// A piece of tape on which each label goes on from the one before it.
#[derive(Clone, Copy)]
pub struct Span {
    /// The frame that was heard first.
    pub first: Mark,
    /// The frame that was heard last, which may be the first.
    pub last: Mark,
    /// How many frames were heard.
    pub heard: u64,
    /// How many frames were invented between two that were heard.
    pub bridged: u64,
}
