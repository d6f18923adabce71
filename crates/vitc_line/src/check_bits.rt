//! The check of a line: a remainder by the generator `x^8 + 1`, which is eight exclusive ors. Read next: `word`.

ghost use Rattle.std.specs.Prelude.{◌≡◌, ℕ, ◌+◌, ◌*◌, ◌^◌, ◌<◌};
ghost use Rattle.std.specs.Int.{bit_at};
ghost use Rattle.vitc_line.specs.CheckBits.{residue, is_set_bit, first_set_bit, wrong_residue};

use crate::places::CHECK;
use tc_bits::get_field;

/// The exclusive ors of all eight residues, that of residue r in bit r: the bits are folded in two
/// until eight are left.
pub(crate) fn folded(bits: u128) -> u32
    requires { bits < 2 ^ 90 }
    ensures width { result < 2 ^ 8 }
    ensures residues { (r : ℕ) → r < 8 → bit_at result r ≡ residue r bits }
{
    let halves = bits ^ (bits >> 64);
    let quarters = halves ^ (halves >> 32);
    let eighths = quarters ^ (quarters >> 16);
    ((eighths ^ (eighths >> 8)) % 256) as u32
}

/// The check that belongs behind these bits.
pub(crate) fn check_of(bits: u128) -> u32
    requires { bits < 2 ^ CHECK.first }
    ensures width { result < 2 ^ CHECK.width }
    ensures holds { (r : ℕ) → r < 8 → residue r (bits + result * 2 ^ CHECK.first) ≡ 0 }
{
    let sums = folded(bits);
    // Bit 82, the first of the check, has the residue 2.
    sums / 4 + sums % 4 * 64
}

/// Whether this bit, from 0 to 7, is set.
fn is_set_at(sums: u32, residue: u32) -> bool
    requires { residue < 8 }
    ensures { result ≡ is_set_bit sums residue }
{
    get_field(sums as u128, residue, 1) != 0
}

/// The first of the eight bits that is set.
#[tactic(auto, unfolding(crate::specs::CheckBits::first_set_bit))]
fn first_set(sums: u32) -> Option<u32>
    ensures { result ≡ first_set_bit sums }
{
    if sums == 0 {
        return None;
    }
    (0..8).find(|&residue| is_set_at(sums, residue))
}

/// The first residue whose exclusive or is not 0.
pub(crate) fn first_wrong_residue(bits: u128) -> Option<u32>
    requires { bits < 2 ^ 90 }
    ensures { result ≡ wrong_residue bits }
{
    first_set(folded(bits))
}
