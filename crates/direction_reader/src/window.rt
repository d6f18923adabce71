//! A window: 80 neighbouring bits of a stretch. Read next: `brought`.
ghost use Rattle.std.specs.Prelude.{◌≡◌, ◌<◌, ◌^◌, ◌↔◌, List, [], ◌∷◌, ◌++◌, Bool, IsTrue};
ghost use Rattle.direction_reader.specs.Candidate.{IsCandidate};
ghost use Rattle.direction_reader.specs.HoldsBits.{HoldsAll, HoldsLatest, Holds};
ghost use Rattle.direction_reader.specs.Window.{with_bit, slid_by};

use ltc_word::{begins_in_reversed_sync, ends_in_sync};
use std::marker::Model;

/// The bits of a window.
pub const WINDOW_BITS: u32 = 80;

/// The bits of a stretch so far, fewer than 80, the latest in bit 79 of a register of 80 bits.
#[derive(Clone, Copy)]
pub struct Filling {
    bits: u128,
    count: u32,
}

impl Model for Filling {
    ghost use Rattle.std.specs.Prelude.{◌<◌, ◌^◌};
    ghost use Rattle.direction_reader.specs.Bits.{FillingBits};
    ghost use Rattle.direction_reader.specs.declared.window.TheConstants.{WINDOW_BITS};

    ghost Value = { FillingBits };

    ghost view = { λ f. record { bits = f.bits; count = f.count } };

    ghost invariant = { λ f. (f.count < WINDOW_BITS) × (f.bits < 2 ^ 80) };

    ghost inverse = { λ v. record { bits = v.bits; count = v.count } };
}

/// The latest 80 bits of a stretch, the oldest in bit 0.
#[derive(Clone, Copy)]
pub struct Full {
    bits: u128,
}

impl Model for Full {
    ghost use Rattle.std.specs.Prelude.{ℕ, ◌<◌, ◌^◌};

    ghost Value = { ℕ };

    ghost view = { λ f. f.bits };

    ghost invariant = { λ f. f.bits < 2 ^ 80 };

    ghost inverse = { λ bits. record { bits = bits } };
}

/// What a bit makes of a window that is not full.
#[derive(Clone, Copy)]
pub enum FromFilling {
    /// It is still not full.
    Filling(Filling),
    /// It has its first 80 bits.
    Full(Full),
}

impl Filling {
    /// No bit.
    pub fn new() -> Filling
        ensures value { result ≡ record { bits = 0; count = 0 } }
        ensures holds { HoldsAll result [] }
    {
        Filling { bits: 0, count: 0 }
    }

    /// Adds a bit at the end.
    pub fn bit(self, bit: bool) -> FromFilling
        ensures value { result ≡ with_bit self bit }
        ensures holds { (bits : List Bool) → HoldsAll self bits → Holds result (bits ++ bit ∷ []) }
    {
        let bits = slid(self.bits, bit);
        let count = self.count + 1;
        if count < WINDOW_BITS {
            FromFilling::Filling(Filling { bits, count })
        } else {
            FromFilling::Full(Full { bits })
        }
    }
}

impl Full {
    /// Adds a bit at the end, and drops the oldest.
    pub fn bit(self, bit: bool) -> Full
        ensures value { result ≡ slid_by self bit }
        ensures holds { (bits : List Bool) → HoldsLatest self bits → HoldsLatest result (bits ++ bit ∷ []) }
    {
        Full {
            bits: slid(self.bits, bit),
        }
    }

    /// Adds a bit at the end, drops the oldest, and returns whether the window is a candidate. The sync
    /// word ends in a one, so behind a zero one test is enough.
    #[inline(always)]
    pub(crate) fn push(&mut self, bit: bool) -> bool
        ensures value { self.new ≡ slid_by self.old bit }
        ensures candidate { IsTrue result ↔ IsCandidate self.new }
    {
        let bits = slid(self.bits, bit);
        self.bits = bits;
        (bit & ends_in_sync(bits)) | begins_in_reversed_sync(bits)
    }

    /// Whether the window ends in the sync word, as read forward or as read backward. The two tests
    /// cost less together than a branch between them.
    pub fn is_candidate(&self) -> bool
        ensures { IsTrue result ↔ IsCandidate self.now }
    {
        ends_in_sync(self.bits) | begins_in_reversed_sync(self.bits)
    }

    /// The bits as one number below 2^80, the oldest in bit 0.
    pub fn window(&self) -> u128
        ensures value { result ≡ self.now }
        ensures eighty { result < 2 ^ 80 }
    {
        self.bits
    }
}

/// A register of 80 bits with one bit more at the end, bit 79, and the oldest gone.
fn slid(bits: u128, bit: bool) -> u128
    requires { bits < 2 ^ 80 }
    ensures value { result ≡ slid_by bits bit }
    ensures eighty { result < 2 ^ 80 }
{
    (bits >> 1) + (u128::from(bit) << (WINDOW_BITS - 1))
}
