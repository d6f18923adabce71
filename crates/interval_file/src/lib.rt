//! The interval file: the lengths of the intervals between the transitions of a recording, in ticks of
//! the recorder's clock.
//!
//! | Byte places | Content |
//! |---|---|
//! | 0 to 3 | the magic `LTCI` |
//! | 4 | the version, 1 or 2 |
//! | 5 | the system as a number: 24, 25 or 30 |
//! | 6 to 7 | reserved, 0 |
//! | 8 to 11 | the tick rate, big endian, from 1 to 100,000,000 ticks a second |
//! | then each interval, version 1 | four bytes: ticks, big endian, from 1 to 16,777,215 |
//! | then each interval, version 2 | two bytes: ticks, big endian, from 1 to 65,535; or 0, 0 and four bytes, from
//! 65,536 to 16,777,215 |
//!
//! It is read from its front, a header and then an interval at a time. Nothing here keeps half a one: bytes that are
//! too few are told as such.
//!
//! What this crate promises:
//! - `front_header` and `next_interval` answer what bytes begin with as soon as its bytes are there: a header or an
//!   interval, or its fault with the byte place (`specs/Front.antt`, `BeginAs`; `specs/Next.antt`, `next_of`). Behind a
//!   file, it is what the bytes bring to the whole text (`BringNext`).
//! - What the bytes of a file say, read from their front, is one value: a file, or its first fault
//!   (`specs/Contents.antt`, `contents_of`); and within the limit of a command the header, the
//!   intervals, and whether they are good, refused or past the limit (`specs/Recording.antt`,
//!   `recording_of`). With more bytes this grows (`specs/Growing.antt`; `laws`).
//! - As a whole text, every list of bytes is a file or has one first fault, which is what is read of
//!   it (`specs/Grammar.antt`, `Says`; `laws`).
//! - `interval_header` and `interval_bytes` give the bytes of a header and of an interval, `four_bytes` those of one in
//!   version 1.
//!
//! Read `fault`, `header` and `piece`. Nothing here allocates.
#![tactic(auto)]

mod fault;
mod header;
pub mod laws;
pub mod names;
mod piece;

pub use fault::IntervalFileFault;
pub use header::{
    FileVersion, HEAD_LENGTH, HEADER_LENGTH, IntervalHeader, MAGIC, VERSION_ONE, VERSION_TWO,
    front_header, interval_header,
};
pub use piece::{LEAST_LONG, Next, four_bytes, interval_bytes, most_width, next_interval};
