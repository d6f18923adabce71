//! How samples become steps.
/// The most steps that a sample can be.
pub const MAX_REPEATS: u32 = 8;

/// The most samples that can be summed in a step.
pub const MAX_SUMMED: u32 = 65_536;

/// The most ticks that a step can have.
pub const MAX_TICKS: u32 = 65_536;

/// How samples become steps.
#[derive(Clone, Copy)]
pub enum Grid {
    /// Each sample stands for several steps.
    Repeat(u32),
    /// A step is the mean of several samples.
    Sum(u32),
}
