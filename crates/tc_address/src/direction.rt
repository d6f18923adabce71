//! The way in which the tape moves. Read next: `label`, which rises or falls.
/// The way in which the tape moves.
#[derive(Clone, Copy)]
pub enum Direction {
    /// The labels rise.
    Forward,
    /// The labels fall.
    Backward,
}
