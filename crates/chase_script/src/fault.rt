//! Why a script is not read.
use crate::column::Column;
use std::alloc::AllocError;
use thiserror::Error;

/// The first refused record of a script, and the least column of it that is refused.
#[derive(Clone, Copy, Debug)]
pub struct RowFault {
    /// Records are counted from 1.
    pub row: u64,
    /// The least refused column.
    pub column: Column,
}

/// Why a script is not read.
#[derive(Debug, Drop, Error)]
pub enum ScriptFault {
    /// A record is refused.
    #[error("Row")]
    Row(RowFault),
    /// There was not enough memory.
    #[error("Memory")]
    Memory(AllocError),
}
