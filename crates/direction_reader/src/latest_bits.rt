//! The latest bits of a stretch, until they fill a window and from then on. Read next: `window`.
ghost use Rattle.std.specs.Prelude.{◌≡◌, ◌↔◌, IsTrue};
ghost use Rattle.direction_reader.specs.LatestBits.{after_bit, EndsInCandidate};

use crate::window::{Filling, FromFilling, Full};

/// The latest bits of a stretch: at most those of one window.
#[derive(Clone, Copy)]
pub enum LatestBits {
    Full(Full),
    Filling(Filling),
}

impl LatestBits {
    /// Adds a bit at the end, and returns whether the bits are a window with a candidate.
    #[inline(always)]
    pub fn add(&mut self, bit: bool) -> bool
        ensures bits { self.new ≡ after_bit self.old bit }
        ensures candidate { IsTrue result ↔ EndsInCandidate self.new }
    {
        match self {
            LatestBits::Full(full) => full.push(bit),
            LatestBits::Filling(filling) => match filling.bit(bit) {
                FromFilling::Filling(next) => {
                    *filling = next;
                    false
                }
                FromFilling::Full(full) => {
                    *self = LatestBits::Full(full);
                    full.is_candidate()
                }
            },
        }
    }
}
