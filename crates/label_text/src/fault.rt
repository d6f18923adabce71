//! Where a line says no label.

/// The first line that says no label, and its first column that does not fit.
#[derive(Clone, Copy)]
pub struct LineFault {
    /// Lines are counted from 1.
    pub line: u64,
    /// So are the bytes of a line.
    pub column: u64,
}
