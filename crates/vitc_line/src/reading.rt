//! Reading a word from the 90 bits of a line. Read next: `check_bits`, and then `tc_bits/src/reading.rt`.

ghost use Rattle.std.specs.Prelude.{◌≡◌, ◌^◌, ◌<◌, IfOk, IfErr, Some};
ghost use Rattle.vitc_line.specs.Places.{HasLines};
ghost use Rattle.vitc_line.specs.Spelling.{Spells};
ghost use Rattle.vitc_line.specs.Fault.{is_wrong_pair, wrong_sync_pair, first_fault};

use crate::check_bits::first_wrong_residue;
use crate::places::{
    ALL_SYNC_PAIRS, SYNC_PAIR, SYNC_PAIRS, UNDER_SYNC_PAIRS, field_mark, sync_pair, table,
};
use crate::word::{LineFault, VitcWord};
use tc_address::System;
use tc_bits::laws::fields_are_exact;
use tc_bits::{fields_at, is_set_at};

/// Whether this sync pair, from 0 to 8, is not 1 and 0.
fn is_wrong(bits: u128, pair: u32) -> bool
    requires { pair < SYNC_PAIRS }
    ensures { result ≡ is_wrong_pair bits pair }
{
    sync_pair(pair).number_in(bits) != SYNC_PAIR
}

/// The first sync pair that is wrong.
#[tactic(auto, unfolding(crate::specs::Fault::wrong_sync_pair))]
fn first_wrong_sync_pair(bits: u128) -> Option<u32>
    ensures { result ≡ wrong_sync_pair bits }
{
    if bits & UNDER_SYNC_PAIRS == ALL_SYNC_PAIRS {
        return None;
    }
    (0..SYNC_PAIRS).find(|&pair| is_wrong(bits, pair))
}

/// Reads a word of the system from the 90 bits of a line, of which bit 0 came first in time.
pub fn decode(system: System, bits: u128) -> Result<VitcWord, LineFault>
    requires system { HasLines system }
    requires width { bits < 2 ^ 90 }
    ensures reads { IfOk result (λ word. Spells system word bits) }
    ensures only { (word : VitcWord) → Spells system word bits → result ≡ Ok word }
    ensures refuses { IfErr result (λ fault. first_fault system bits ≡ Some fault) }
{
    fields_are_exact();
    if let Some(pair) = first_wrong_sync_pair(bits) {
        return Err(LineFault::SyncPair(pair));
    }
    if let Some(residue) = first_wrong_residue(bits) {
        return Err(LineFault::Check(residue));
    }
    match fields_at(system, &table(system), bits) {
        Ok(fields) => Ok(VitcWord {
            fields,
            field_mark: is_set_at(bits, field_mark(system)),
        }),
        Err(fault) => Err(LineFault::Field(fault)),
    }
}
