//! Where the first distance begins. Read next: `quiet`.

/// Where the first distance begins.
#[derive(Clone, Copy)]
pub enum Start {
    /// At the first crossing.
    Crossing,
    /// At tick 0, the place of the first sample.
    Tick,
}
