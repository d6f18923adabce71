//! Words that are played backward, and the sync word at the end of a word of either direction. Read next:
//! `reading`.

ghost use Rattle.std.specs.Prelude.{◌≡◌, ◌-◌, ◌^◌, ◌<◌, ◌↔◌, ℕ, IsTrue};
ghost use Rattle.std.specs.Int.{bit_at};
ghost use Rattle.ltc_word.specs.Reversal.{reversed_bits, EndsInSync};

use crate::places::{SYNC, SYNC_PATTERN};

/// The sync word as bits 0 to 15 hold it in a word that is played backward.
const BACKWARD_SYNC_PATTERN: u128 = 0x3ffd;

/// Whether bits 64 to 79 are the sync word. It costs one shift and one comparison.
pub fn ends_in_sync(bits: u128) -> bool
    requires { bits < 2 ^ 80 }
    ensures { IsTrue result ↔ EndsInSync bits }
{
    bits >> SYNC.first == SYNC_PATTERN as u128
}

/// Whether the bits, in reverse order, end in the sync word: the test of a word that is
/// played backward. It costs one mask and one comparison, and reverses nothing.
pub fn begins_in_reversed_sync(bits: u128) -> bool
    requires { bits < 2 ^ 80 }
    ensures { IsTrue result ↔ EndsInSync (reversed_bits bits) }
{
    bits % (1 << SYNC.width) == BACKWARD_SYNC_PATTERN
}

/// The 80 bits in reverse order: bit i of the result is bit 79 - i.
pub fn reversed(bits: u128) -> u128
    requires { bits < 2 ^ 80 }
    ensures value { result ≡ reversed_bits bits }
    ensures width { result < 2 ^ 80 }
    ensures bits { (i : ℕ) → i < 80 → bit_at result i ≡ bit_at bits (79 - i) }
    ensures twice { reversed_bits result ≡ bits }
{
    bits.reverse_bits() >> 48
}
