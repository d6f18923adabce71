//! What a chase is given in a frame. Read next: `report`.
use tc_address::Direction;

/// A command of the operator.
#[derive(Clone, Copy)]
pub enum Command {
    /// Follow the master.
    Play,
    /// Leave the transport alone.
    Wait,
    /// Go to the first subframe of the label of this number, which is below the labels of a day.
    Locate(u32),
}

/// What the master's timecode reads.
#[derive(Clone, Copy)]
pub struct Master {
    /// The number of the label, of the chase's count and below the labels of a day.
    pub number: u32,
    /// The way in which the master moves, one frame for each of the chase's.
    pub direction: Direction,
}
