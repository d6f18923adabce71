//! A chase: the part of a synchroniser that makes a transport follow the timecode of a master.
//!
//! The chase works once a frame. It sees a command, what the master reads, and where the transport
//! is. It says how the transport moves in this frame: with the master, and by some of the
//! error, which is the shortest way from the transport to its place on the circle of a day. All of this
//! is in subframes, which are eightieths of a frame. Locked, the error is at most half a frame, 40
//! subframes. The control law is this project's own.
//!
//! What this crate promises:
//! - `Chase::step` answers, and changes the state, by the table of `specs/Step.antt` (`step_of`), for
//!   every command, master and position of the day. A loss comes with its cause and at no other time.
//! - In the closed loop, where chase and transport take turns (`specs/Trace.antt`, `trace`), a locked
//!   chase stays locked and reports no loss while the master moves steadily, no command comes, and the
//!   transport keeps its slip bound. Its error is then at most 40, 24 and at last 8 subframes (`laws`).
//!   A slip of up to 24 subframes costs no lock.
//! - Under the same premises pulling ends: from an error of 40 + 1272·n the chase is locked n rows
//!   later (`laws`).
//! - `ClosedLoop` works that loop a frame at a time (`after_row`, `traced`).
//!
//! Read `command`, `report`, `mode`, `outcome` and `chase`, in this order, and `specs/Step.antt` beside
//! them; then `closed_loop` and `laws` with `specs/Trace.antt`. `transport_model` is what moves. Nothing
//! here allocates or refuses.
#![tactic(auto)]

mod chase;
mod closed_loop;
mod command;
pub mod laws;
mod mode;
mod outcome;
mod report;

pub use chase::Chase;
pub use closed_loop::ClosedLoop;
pub use command::{Command, Master};
pub use report::{Loss, State, StepReport};
