//! What is measured of a decided cell. Read next: `levels`.
ghost use Rattle.std.specs.Prelude.{◌≡◌, ◌+◌, ◌*◌, ◌/◌, ◌-◌, ◌^◌, ◌<◌, ◌≤◌, ℤ, unsigned_abs, List, [], ◌∷◌};
ghost use Rattle.cell_path.specs.Path.{signed};
ghost use Rattle.path_front.specs.Latest.{AreSums, LatestStandFor};
ghost use Rattle.path_front.specs.Measured.{first_sign, half_of, measured_of, IsHalf, IsMeasured};

use crate::latest::{Latest, PartSums};
use cell_path::{Bit, Decided, Sign, length_at};

/// A half of a cell. The middle step of an odd one counts half for each of its halves, so all is taken
/// twice.
#[derive(Clone, Copy)]
pub struct Half {
    /// Twice the sum of the sound, times the sign that the path has there.
    pub sum: i64,
    /// Twice the sum of its squares.
    pub squares: u64,
}

/// What the gate and the intervals need of a cell.
#[derive(Clone, Copy)]
pub struct Measured {
    /// How many steps it ends after the one before it, from 2 to 120.
    pub span: u32,
    /// In steps, from 4 to 96.
    pub length: u32,
    pub bit: Bit,
    /// It does not begin where the cell before it ended.
    pub jumps: bool,
    pub first: Half,
    pub second: Half,
}

impl Default for Measured {
    fn default() -> Measured {
        let none = Half { sum: 0, squares: 0 };
        Measured {
            span: 2,
            length: 4,
            bit: Bit::Zero,
            jumps: true,
            first: none,
            second: none,
        }
    }
}

/// The sign of a path in the first half of a cell that ends with a sign.
fn first_sign(bit: Bit, sign: Sign) -> Sign
    ensures { result ≡ first_sign bit sign }
{
    match (bit, sign) {
        (Bit::Zero, sign) => sign,
        (Bit::One, Sign::Plus) => Sign::Minus,
        (Bit::One, Sign::Minus) => Sign::Plus,
    }
}

/// A number with a sign.
fn signed(sign: Sign, number: i64) -> i64
    requires { unsigned_abs number ≤ 96 * 2 ^ 16 }
    ensures value { result ≡ signed sign number }
    ensures size { unsigned_abs result ≡ unsigned_abs number }
{
    match sign {
        Sign::Plus => number,
        Sign::Minus => -number,
    }
}

/// The sums of the longer part of a half. Where no step is in the middle, they are those of the shorter part.
fn longer_sums(
    latest: &Latest,
    short: PartSums,
    shorter_ago: usize,
    longer_ago: usize,
    length: usize,
) -> PartSums
    requires length { length ≤ 96 }
    requires longer { longer_ago + length ≤ 4_096 }
    requires even { length / 2 ≡ length - length / 2 → shorter_ago ≡ longer_ago }
    requires short { AreSums latest.now shorter_ago (length / 2) short }
    ensures { AreSums latest.now longer_ago (length - length / 2) result }
{
    let longer = length - length / 2;
    if length / 2 == longer {
        short
    } else {
        latest.sums(longer_ago, longer)
    }
}

/// A half of a cell, from its shorter part and its longer one, which end `shorter_ago` and `longer_ago` steps ago.
fn measure_half(
    latest: &Latest,
    shorter_ago: usize,
    longer_ago: usize,
    length: usize,
    sign: Sign,
) -> Half
    requires length { length ≤ 96 }
    requires shorter { shorter_ago + length ≤ 4_096 }
    requires longer { longer_ago + length ≤ 4_096 }
    requires even { length / 2 ≡ length - length / 2 → shorter_ago ≡ longer_ago }
    ensures value { (sounds : List ℤ) → LatestStandFor latest.now sounds
        → result ≡ half_of sign shorter_ago longer_ago length sounds }
    ensures size { IsHalf length result }
{
    let short = latest.sums(shorter_ago, length / 2);
    let long = longer_sums(latest, short, shorter_ago, longer_ago, length);
    Half {
        sum: signed(sign, short.sum + long.sum),
        squares: short.squares + long.squares,
    }
}

/// Measures a cell that is decided. All steps up to its end have come, and at most 2,048 more.
pub(crate) fn measure(latest: &Latest, ended: u64, decided: Decided) -> Measured
    requires place { decided.placed.cell.place < 45 }
    requires come { decided.placed.end ≤ latest.now.count }
    requires near { latest.now.count ≤ decided.placed.end + 2_048 }
    requires behind { ended + 2 ≤ decided.placed.end }
    requires close { decided.placed.end ≤ ended + 120 }
    ensures value { (sounds : List ℤ) → LatestStandFor latest.now sounds
        → result ≡ measured_of decided ended sounds }
    ensures size { IsMeasured result }
{
    let cell = decided.placed.cell;
    let length = length_at(cell.place);
    let shorter = length / 2;
    let longer = length - shorter;
    let ago = (latest.count() - decided.placed.end) as usize;
    let first_sign = first_sign(cell.bit, cell.sign);
    Measured {
        span: (decided.placed.end - ended) as u32,
        length: length as u32,
        bit: cell.bit,
        jumps: decided.jumps,
        first: measure_half(latest, ago + longer, ago + shorter, length, first_sign),
        second: measure_half(latest, ago, ago, length, cell.sign),
    }
}
