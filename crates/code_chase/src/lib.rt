//! A chase over recorded code: the frames of a recording are the master of a modelled transport.
//!
//! Each frame of a recording, heard, invented or gone, is one step of a chase. Its label is what the
//! master reads, if it has the count of the chase; if the time code is gone the master reads
//! nothing. The transport slips in each step by a number of subframes drawn by chance, up to a bound, so
//! a run can be repeated by its seed. The rule is this project's own.
//!
//! What this crate promises:
//! - `CodeChase::frame` answers the step of each frame, and moves the transport, exactly
//!   (`specs/CodeTrace.antt`, `code_trace`; its clauses and `laws::a_frame_adds_a_line`).
//! - A loss of no code comes exactly if the frame is gone or has another count; one of the window only
//!   if the frame was heard and does not join, or if the transport slipped by 25 subframes or more
//!   in the step before (`laws::each_loss_has_a_cause`). So frames that join one another, heard or
//!   invented, in the count of the chase, keep the lock of a transport that slips by at most 24
//!   (`laws::whole_code_keeps_the_lock`); a gap, a splice or another count may cost it.
//!
//! Read `master`, `slip` and `code_loop`, in this order, with `specs/CodeTrace.antt` beside them, and
//! `laws` with `specs/Lock.antt`. Nothing here allocates or fails.
#![tactic(auto)]

mod code_loop;
pub mod laws;
mod master;
mod slip;

pub use code_loop::CodeChase;
