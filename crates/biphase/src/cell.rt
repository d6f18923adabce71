//! A cell of biphase mark.

/// One bit of biphase mark (SMPTE 12M, linear time code), with its intervals in ticks.
#[derive(Clone, Copy)]
pub enum Cell {
    /// A zero: one interval.
    Zero(u32),
    /// A one: two intervals, its halves, the first in time first.
    One(u32, u32),
}
