//! Remainders by a product in place of a quotient: each cell of the load run waits for the remainder before it, and
//! a division takes longer. Read next: `about`.
ghost use Rattle.std.specs.Prelude.{◌≡◌, ◌<◌, ◌≤◌, ◌+◌, ◌*◌, ◌%◌, ◌^◌};
ghost use Rattle.made_commands.specs.KeptDivisors.{AreFactors, factor_of};

/// How many halves there are: a divisor is known by its half, rounded down, and 1 is counted too.
const HALVES: usize = 513;

/// The odd divisors from 3 to 1,025, and of each what a number is multiplied with in place of a division: the
/// quotient is in the upper 64 bits of the product.
#[derive(Drop)]
pub(crate) struct Divisors {
    factors: [u64; HALVES],
}

impl Divisors {
    /// The factor of each divisor.
    pub(crate) fn new() -> Divisors
        ensures { AreFactors result.factors }
    {
        let mut factors = [0; HALVES];
        'halves: for half in 1..HALVES {
            factors[half] = factor_of(half);
        }
        Divisors { factors }
    }

    /// What a division by `2 * half + 1` leaves.
    #[inline(always)]
    pub(crate) fn remainder(&self, value: u64, half: u32) -> u32
        requires factors { AreFactors self.now.factors }
        requires small { value < 2 ^ 44 }
        requires least { 1 ≤ half }
        requires most { half ≤ 512 }
        ensures value { result ≡ value % (2 * half + 1) }
    {
        let divisor = 2 * half as u64 + 1;
        let product = value as u128 * self.factors[half as usize] as u128;
        let quotient = (product >> 64) as u64;
        (value - quotient * divisor) as u32
    }
}

/// The factor of the divisor `2 * half + 1`.
fn factor_of(half: usize) -> u64
    requires least { 1 ≤ half }
    requires most { half ≤ 512 }
    ensures value { result ≡ factor_of (2 * half + 1) }
{
    ((1 << 64) / (2 * half as u128 + 1) + 1) as u64
}
