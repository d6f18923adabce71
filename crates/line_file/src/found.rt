//! What bytes begin with. Read next: `header`.
use file_faults::LineFileFault;

/// What bytes begin with.
#[derive(Clone, Copy)]
pub(crate) enum Found {
    /// A whole thing.
    Whole,
    /// The first bytes of one.
    Short,
    /// A piece that fails its test.
    Fault(LineFileFault),
}
