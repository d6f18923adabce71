//! What is beside a window: the latest 96 bits of a stretch. Read next: `waiting`.
ghost use Rattle.std.specs.Prelude.{◌≡◌};
ghost use Rattle.direction_reader.specs.Beside.{none_beside, beside_with, is_firm_before, is_sync_behind};

use ltc_word::places::{SYNC, SYNC_PATTERN};
use std::marker::Model;

/// The bits of a window and the 16 before it.
const BESIDE_BITS: u32 = 96;

/// The sync word of a word that is played backward, as it comes in time.
const BACKWARD_SYNC_PATTERN: u128 = 0x3ffd;

/// The latest 96 bits of a stretch, the latest in bit 95 of a register of 96 bits.
#[derive(Clone, Copy)]
pub struct Beside {
    bits: u128,
    count: u32,
}

impl Model for Beside {
    ghost use Rattle.std.specs.Prelude.{◌<◌, ◌≤◌, ◌^◌};
    ghost use Rattle.direction_reader.specs.Beside.{BesideBits};

    ghost Value = { BesideBits };

    ghost view = { λ b. record { bits = b.bits; count = b.count } };

    ghost invariant = { λ b. (b.bits < 2 ^ 96) × (b.count ≤ 96) };

    ghost inverse = { λ v. record { bits = v.bits; count = v.count } };
}

impl Beside {
    /// No bit.
    pub fn new() -> Beside
        ensures { result ≡ none_beside }
    {
        Beside { bits: 0, count: 0 }
    }

    /// Adds a bit at the end, and drops the oldest.
    #[inline(always)]
    pub fn push(&mut self, bit: bool)
        ensures { self.new ≡ beside_with self.old bit }
    {
        self.bits = (self.bits >> 1) + (u128::from(bit) << (BESIDE_BITS - 1));
        self.count = (self.count + 1).min(BESIDE_BITS);
    }

    /// Whether the latest 80 bits come after the sync word of a word that is played forward, or
    /// the stretch does not reach that far.
    pub fn is_firm_before(&self) -> bool
        ensures { result ≡ is_firm_before self.now }
    {
        self.count < BESIDE_BITS || self.bits % (1 << SYNC.width) == SYNC_PATTERN as u128
    }

    /// Whether the latest 16 bits are the sync word of a word that is played backward.
    pub fn is_sync_behind(&self) -> bool
        ensures { result ≡ is_sync_behind self.now }
    {
        self.bits >> (BESIDE_BITS - SYNC.width) == BACKWARD_SYNC_PATTERN
    }
}
