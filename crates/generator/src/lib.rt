//! Numbers by chance, the same for the same seed.
//!
//! A linear congruential generator of 64 bits: a draw multiplies the state, adds, and keeps the low 64
//! bits of the sum. The value of a draw is the new state, so the seed itself is never a value. Its high
//! bits are the better ones. It is for trials that have to be repeated, and for nothing secret.
//!
//! What this crate promises: each draw exactly (`specs/Draw.antt`, `drawn`).
//!
//! Read `generator`, and `specs/Draw.antt` beside it. The load run and the chase over recorded code draw
//! from it. Nothing here allocates or fails.
#![tactic(auto)]

mod generator;

pub use generator::Generator;
