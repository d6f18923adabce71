//! What a chase says of a frame. Read next: `transport_model/src/transport.rt`.

/// What a chase does.
#[derive(Clone, Copy)]
pub enum State {
    /// It leaves the transport alone.
    Waiting,
    /// It goes to a label, whatever the master does.
    Locating,
    /// It follows the master and is not at its place yet.
    Pulling,
    /// It follows the master within half a frame.
    Locked,
}

/// Why the lock is lost.
#[derive(Clone, Copy)]
pub enum Loss {
    /// The master reads nothing.
    NoCode,
    /// The error, in subframes, is more than half a frame.
    Window(i32),
}

/// What a chase says of one frame.
#[derive(Clone, Copy)]
pub struct StepReport {
    /// The state after the frame.
    pub state: State,
    /// The way from the transport to where it should be, in subframes. 0 if there is no such place.
    pub error: i32,
    /// By how much the transport has to move in this frame, in subframes.
    pub order: i32,
    /// The lock was there before this frame, and is lost.
    pub loss: Option<Loss>,
}
