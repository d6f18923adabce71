//! The ticks at the latest boundaries of cells. Read next: `candidates`, with a window that is one.
ghost use Rattle.std.specs.Prelude.{◌≡◌, length, replicate, slice_index};
ghost use Rattle.direction_reader.specs.Boundaries.{with_tick};

use std::marker::Model;

/// The boundaries of a window: one before each of its 80 cells, and the one at its end.
pub const BOUNDARIES: usize = 81;

/// The latest 81 ticks that it was given, the oldest first, with zeros for those before the first. They
/// are in a ring of 256 places, so that a byte which wraps is its next place, and nothing tests for its end.
#[derive(Drop)]
pub struct Boundaries {
    ring: [u64; 256],
    next: u8,
}

impl Model for Boundaries {
    ghost use Rattle.std.specs.Prelude.{ℕ, ◌≡◌, ◌<◌, List, length};
    ghost use Rattle.direction_reader.specs.Boundaries.{latest_of};

    ghost Value = { List ℕ };

    ghost view = { λ b. latest_of b.ring b.next };

    ghost invariant = { λ b. (length b.ring ≡ 256) × (b.next < 256) };
}

impl Boundaries {
    /// Zeros only.
    pub fn new() -> Boundaries
        ensures value { result ≡ replicate BOUNDARIES 0 }
        ensures all { length result ≡ BOUNDARIES }
    {
        Boundaries {
            ring: [0; 256],
            next: 0,
        }
    }

    /// Adds a boundary, and drops the oldest.
    #[inline(always)]
    pub fn push(&mut self, tick: u64)
        ensures added { self.new ≡ with_tick self.old tick }
        ensures all { length self.new ≡ BOUNDARIES }
    {
        self.ring[self.next as usize] = tick;
        self.next = self.next.wrapping_add(1);
    }

    /// The tick of the oldest boundary.
    pub fn oldest(&self) -> u64
        ensures { result ≡ slice_index self.now 0 }
    {
        self.ring[self.next.wrapping_sub(BOUNDARIES as u8) as usize]
    }
}
