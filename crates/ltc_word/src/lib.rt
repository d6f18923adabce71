//! The 80-bit word of linear time code.
//!
//! A word is 80 bits, bit 0 first in time: a frame address in decimal digits, eight user groups, five
//! flags, a bit that corrects the balance, and at the end the sync word, which shows a reader where a
//! word ends and which way the tape runs (SMPTE 12M, the table of the linear time code word). Here the
//! bits are a number below 2 to the 80th, bit 0 least significant.
//!
//! What this crate promises:
//! - `encode` gives the one spelling of a word, `spelling` the same number by the weights of its places
//!   (`specs/Spelled.antt`, `spelling_of`), and `decode` reads a word exactly from its spelling
//!   (`specs/Spelling.antt`, `Spells`). So each is the other's inverse.
//! - Other bits are refused with their first fault: the least bit of the sync word that differs, else
//!   the first fault of the fields (`specs/Fault.antt`, `first_fault`).
//! - The word that is in bits, place by place, is the one that they spell (`specs/Reading.antt`,
//!   `word_in`; the law `what_stands_in_bits_is_what_they_spell`).
//! - `ends_in_sync` and `begins_in_reversed_sync` find the end of a word of either direction, each by
//!   one comparison, and `reversed` takes the bits in reverse order
//!   (`specs/Reversal.antt`).
//!
//! Read `places`, the table, then `word`, `reading`, `writing` and `reversal`, with
//! `specs/Spelling.antt` beside them. `laws` says what holds of the table and of the spelling: each
//! bit has one place, and twelve ones in a row are the sync word. `direction_reader` reads words with this
//! crate, and `report_text` and `tc_top` print and make them. Nothing here allocates or fails in any other
//! way.
#![tactic(auto)]

mod balance;
pub mod laws;
pub mod places;
mod reading;
mod reversal;
mod word;
mod writing;

pub use reading::decode;
pub use reversal::{begins_in_reversed_sync, ends_in_sync, reversed};
pub use word::{LtcWord, WordFault};
pub use writing::{encode, spelling};
