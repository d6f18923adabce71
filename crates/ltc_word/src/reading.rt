//! Reading a word from its 80 bits. Read next: `tc_bits/src/reading.rt`, and with the fields `word`.

ghost use Rattle.std.specs.Prelude.{◌≡◌, ◌+◌, ◌^◌, ◌<◌, ◌≤◌, IfOk, IfErr, Some};
ghost use Rattle.ltc_word.specs.Spelling.{Spells};
ghost use Rattle.ltc_word.specs.Fault.{differs, wrong_sync_bit, first_fault, IsOfFields};
ghost use Rattle.ltc_word.specs.Reversal.{EndsInSync};

use crate::balance::is_balanced;
use crate::places::{SYNC, SYNC_PATTERN, table};
use crate::word::{LtcWord, WordFault};
use tc_address::System;
use tc_bits::laws::fields_are_exact;
use tc_bits::{fields_at, get_field};

/// Whether this bit, from 64 to 79, is another than the sync word's.
fn is_wrong(bits: u128, place: u32) -> bool
    requires { (SYNC.first ≤ place) × (place < SYNC.first + SYNC.width) }
    ensures { result ≡ differs bits place }
{
    get_field(bits, place, 1) != get_field(SYNC_PATTERN as u128, place - SYNC.first, 1)
}

/// The first bit of the sync word that is wrong.
#[tactic(auto, unfolding(crate::specs::Fault::wrong_sync_bit))]
fn first_wrong_sync_bit(bits: u128) -> Option<u32>
    ensures { result ≡ wrong_sync_bit bits }
{
    (SYNC.first..SYNC.first + SYNC.width).find(|&place| is_wrong(bits, place))
}

/// Reads a word of the system from its 80 bits, of which bit 0 came first in time.
pub fn decode(system: System, bits: u128) -> Result<LtcWord, WordFault>
    requires { bits < 2 ^ 80 }
    ensures reads { IfOk result (λ word. Spells system word bits) }
    ensures only { (word : LtcWord) → Spells system word bits → result ≡ Ok word }
    ensures refuses { IfErr result (λ fault. first_fault system bits ≡ Some fault) }

    // Bits that end in the sync word are refused for their fields alone.
    ensures in_sync { EndsInSync bits → IfErr result IsOfFields }
{
    fields_are_exact();
    if let Some(bit) = first_wrong_sync_bit(bits) {
        return Err(WordFault::Sync(bit));
    }
    match fields_at(system, &table(system), bits) {
        Ok(fields) => Ok(LtcWord {
            fields,
            balanced: is_balanced(bits),
        }),
        Err(fault) => Err(WordFault::Field(fault)),
    }
}
