//! The 90 bits of a line of vertical interval time code.
//!
//! A line of video between two fields carries 90 bits as levels, bit 0 first in time: a frame address in
//! decimal digits, eight user groups, five flags, the mark of the field, nine sync pairs that let a
//! reader keep step, and a check over all of them (SMPTE 12M, the table of the vertical interval time
//! code). Here the bits are a number below 2 to the 90th, bit 0 least significant. There are such lines
//! at 25 and 30 frames.
//!
//! What this crate promises:
//! - `encode` gives the one spelling of a word, and `decode` reads a word exactly from its spelling
//!   (`specs/Spelling.antt`, `Spells`). So each is the other's inverse.
//! - The check is eight exclusive ors, each over the bits whose number leaves one residue modulo 8
//!   (`specs/CheckBits.antt`, `residue`).
//! - Other bits are refused with their first fault: the least sync pair that is wrong, else the least
//!   residue whose exclusive or is not 0, else the first fault of the fields (`specs/Fault.antt`,
//!   `first_fault`).
//!
//! Read `places`, the table, then `word`, `check_bits`, `reading` and `writing`, with
//! `specs/Spelling.antt` beside them. `laws` says what holds of the table and of the spelling: each bit
//! has one place, and a word has one spelling. `vitc_reader` reads the lines of a field with this crate.
//! Nothing here allocates or fails in any other way.
#![tactic(auto)]

mod check_bits;
pub mod laws;
pub mod places;
mod reading;
mod word;
mod writing;

pub use reading::decode;
pub use word::{LineFault, VitcWord};
pub use writing::encode;
