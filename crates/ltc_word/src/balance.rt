//! The balance of a word: whether an even number of its bits is 0. Read next: `writing`.

ghost use Rattle.std.specs.Prelude.{◌^◌, ◌<◌, ◌↔◌, IsTrue};
ghost use Rattle.ltc_word.specs.Balance.{IsBalanced};

/// Whether an even number of the 80 bits is 0.
pub(crate) fn is_balanced(bits: u128) -> bool
    requires { bits < 2 ^ 80 }
    ensures { IsTrue result ↔ IsBalanced bits }
{
    (80 - bits.count_ones()) % 2 == 0
}
