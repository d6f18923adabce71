//! What an interval did to the stretch, and whether it brought an event. Read next: `candidates`, if a window is one.

use crate::state::Step;

/// What an interval brought, known at once: nearly every interval brings nothing. The events
/// themselves are worked out only if there may be some.
#[derive(Clone, Copy)]
pub enum Brought {
    /// No event.
    Nothing,
    /// A window that ends in the sync word, as read forward or as read backward.
    Candidate,
    /// The stretch broke.
    Break,
}

/// What an interval did to the stretch, and what it brought.
#[derive(Clone, Copy)]
pub struct Taken {
    pub step: Step,
    pub brought: Brought,
}
