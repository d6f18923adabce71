//! A word and the faults of its bits.

use tc_bits::{FieldFault, Fields};
use thiserror::Error;

/// A word of linear time code: what it says, and whether an even number of its 80 bits is 0.
#[derive(Clone, Copy)]
pub struct LtcWord {
    /// The frame address, the flag bits and the user bits.
    pub fields: Fields,
    /// Whether an even number of the 80 bits is 0. Not every generator sees to that, so a word of
    /// either balance is accepted.
    pub balanced: bool,
}

/// The first fault of 80 bits, in the order of these variants.
#[derive(Clone, Copy, Debug, Drop, Error)]
pub enum WordFault {
    /// The first bit, from 64 to 79, that is not the sync word's.
    #[error("the sync word is wrong at this bit")]
    Sync(u32),
    /// The fields are no address.
    #[error("the fields are no address")]
    Field(FieldFault),
}
