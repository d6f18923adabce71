//! A modelled transport: a tape that moves as it is ordered, up to a slip.
//!
//! A transport has a position on the circle of a day, in subframes, which are eightieths of a
//! frame. An order moves it by a number of subframes, backward if that is negative. It slips
//! while it moves, and so stops a little beside the place that was meant. It honours its
//! bound in a move whose slip is at most 8 subframes, a tenth of a frame. The model is this project's
//! own.
//!
//! What this crate promises:
//! - `Transport::apply` moves by the sum of order and slip, modulo the day, for every order and slip
//!   up to a million (`specs/Move.antt`, `after_move`).
//! - In a move that honours the bound the slip is the shortest way from the place that was meant to
//!   the place that was reached (`laws`).
//!
//! Read `transport` and `specs/Move.antt` beside it. `chase_core` gives the orders. Nothing here
//! allocates or refuses.
#![tactic(auto)]

pub mod laws;
mod transport;

pub use transport::Transport;
