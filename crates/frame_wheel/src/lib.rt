//! A flywheel with its clock: frames of words and of time that passes, piece by piece.
//!
//! A flywheel is called at ticks that do not fall. This one keeps the latest tick that it was told, so who
//! calls it can ask first whether a tick may be told. Its frames are those of the words so far up to that
//! tick: a word as it was heard, and where none comes an invented one, up to a limit.
//!
//! What this crate promises:
//! - What a `FrameWheel` has given of the words that it heard comes first among their frames up to the
//!   latest tick, and where nothing is due any more it is all of them (`specs/Wheel.antt`, `StandsFor` and
//!   `HasGivenAll`; clauses `stands` of `passed` and of `heard`).
//! - Calls of `passed` at one tick come to an end (clause `fewer`).
//!
//! Read `wheel`, and `specs/Wheel.antt` beside it. `tc_c` makes functions for C of it. Nothing here allocates
//! or fails.
#![tactic(auto)]

mod wheel;

pub use wheel::FrameWheel;
