//! A word of a line, and the faults of its bits.

use tc_bits::{FieldFault, Fields};
use thiserror::Error;

/// What a line of vertical interval time code says.
#[derive(Clone, Copy, PartialEq, Eq)]
pub struct VitcWord {
    /// The frame address, the flag bits and the user bits.
    pub fields: Fields,
    /// The field mark: not set in the first field of a frame, set in the second.
    pub field_mark: bool,
}

/// The first fault of 90 bits, in the order of these variants.
#[derive(Clone, Copy, Debug, Drop, Error)]
pub enum LineFault {
    /// The first sync pair, from 0 to 8, that is not 1 and 0.
    #[error("this sync pair is not 1 and 0")]
    SyncPair(u32),
    /// The first residue, from 0 to 7, whose bits have another exclusive or than 0.
    #[error("the check fails at this residue")]
    Check(u32),
    /// The fields are no address.
    #[error("the fields are no address")]
    Field(FieldFault),
}
