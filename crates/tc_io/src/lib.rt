//! Where the toolkit's bytes come from and go to: sources and sinks.
//!
//! A source is pulled for bytes and a sink is pushed bytes. What either means is two things: the
//! bytes that are left in a source or were written to a sink, if they are known, and the object's
//! count of faults, a `u64` that never falls and stops at its last value. A source has a third: how
//! many pulls came at its end or after it. Every promise of the program about input and output is
//! stated over these.
//!
//! What this crate promises:
//! - Each call keeps to its trait: what an `Ok` takes from the front or adds at the end, that a
//!   `Failed` leaves the known bytes alone, and that a `Failed` comes only if the object's own
//!   count of faults rose in the call or is at its last value (`specs/Source.antt`, `HasCause`).
//! - A pull is counted if it comes to the end of the input, and if it comes after it (same file,
//!   `ends_after`).
//! - `push_all` appends all bytes, in order, or fails by its sink's fault with a front of them
//!   appended (`specs/Sink.antt`, `AppendsFront`).
//! - `put_bytes` puts all bytes at the end of fixed room.
//! - The sources and the sink in memory answer each call exactly (`specs/Memory.antt`), fail at
//!   the given calls, and take no memory after they are made.
//!
//! Read `failed`, `source`, `sink` and `room`, then `memory_source`, `steady_source` and `memory_sink`, and
//! last `adapters`, with the files of `specs/` beside them. `adapters` is the trusted edge: what a
//! real reader or writer does is known only by what it answers, so those two have no known bytes.
//! That a pull is one read and a push one write, and that none is tried again after an error, no
//! clause can say of them, since a reader does not say how often it was called:
//! `file_tests/src/streams.rt` shows it.
#![tactic(auto)]

mod adapters;
mod failed;
mod memory_sink;
mod memory_source;
mod room;
mod sink;
mod source;
mod steady_source;

pub use adapters::{ReadSource, WriteSink};
pub use failed::Failed;
pub use memory_sink::MemorySink;
pub use memory_source::MemorySource;
pub use room::put_bytes;
pub use sink::{Sink, push_all};
pub use source::Source;
pub use steady_source::SteadySource;
