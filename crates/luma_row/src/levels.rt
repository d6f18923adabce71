//! What the heights of cells say, and two rows as one.
ghost use Rattle.std.specs.Prelude.{◌≡◌, ◌^◌, ◌<◌, ◌≤◌, true, false, not, cond, map, unsigned_abs, IfNone, IfSome};
ghost use Rattle.std.specs.List.{range_with_len};
ghost use Rattle.luma_row.specs.Choice.{all_of};
ghost use Rattle.luma_row.specs.KeptHeights.{AreHeights};
ghost use Rattle.luma_row.specs.Levels.{contradict, is_clear, is_firm, is_one, is_opposite, joined, number_of};
ghost use Rattle.luma_row.specs.Levels.{says_bits, sum_at};
ghost use Rattle.luma_row.specs.KeptLevels.{AreLevels};

use crate::cells::BITS;
use crate::heights::Heights;

/// The swing of the sync pairs, and how high each cell stands above its threshold.
#[derive(Clone, Copy)]
pub struct Levels {
    /// Of all nine sync pairs, in sixteenths of a pixel times levels.
    pub swing: u32,
    /// In 160ths of the same.
    pub heights: Heights,
}

impl Levels {
    /// Whether a bit is 1.
    fn is_one(&self, bit: usize) -> bool
        requires { bit < 90 }
        ensures { result ≡ is_one self.now bit }
    {
        self.heights[bit] > 0
    }

    /// Whether a bit is an eighth of the way to its level, or more.
    fn is_clear(&self, bit: usize) -> bool
        requires levels { AreLevels (2 ^ 29) (2 ^ 36) self.now }
        requires bit { bit < 90 }
        ensures { result ≡ is_clear self.now bit }
    {
        10 * u64::from(self.swing) <= 9 * self.heights[bit].unsigned_abs()
    }

    /// Whether a bit is half of the way to its level, or more.
    fn is_firm(&self, bit: usize) -> bool
        requires levels { AreLevels (2 ^ 29) (2 ^ 36) self.now }
        requires bit { bit < 90 }
        ensures { result ≡ is_firm self.now bit }
    {
        40 * u64::from(self.swing) <= 9 * self.heights[bit].unsigned_abs()
    }

    /// Whether a bit is firm in both rows, and another one in each.
    fn is_opposite(&self, other: &Levels, bit: usize) -> bool
        requires levels { AreLevels (2 ^ 29) (2 ^ 36) self.now }
        requires others { AreLevels (2 ^ 29) (2 ^ 36) other.now }
        requires bit { bit < 90 }
        ensures { result ≡ is_opposite self.now other.now bit }
    {
        self.is_firm(bit) && other.is_firm(bit) && self.differs(other, bit)
    }

    /// Whether a bit is another one in each row.
    fn differs(&self, other: &Levels, bit: usize) -> bool
        requires { bit < 90 }
        ensures { result ≡ cond (is_one self.now bit) (not (is_one other.now bit)) (is_one other.now bit) }
    {
        if self.is_one(bit) {
            !other.is_one(bit)
        } else {
            other.is_one(bit)
        }
    }

    /// Whether two rows contradict each other in some bit.
    pub fn contradicts(&self, other: &Levels) -> bool
        requires levels { AreLevels (2 ^ 29) (2 ^ 36) self.now }
        requires others { AreLevels (2 ^ 29) (2 ^ 36) other.now }
        ensures { result ≡ contradict self.now other.now }
    {
        let mut found = false;
        for bit in 0..BITS {
            found |= self.is_opposite(other, bit);
        }
        found
    }

    /// The sum of a height in both rows.
    fn sum_at(&self, other: &Levels, bit: usize) -> i64
        requires levels { AreLevels (2 ^ 28) (2 ^ 35) self.now }
        requires others { AreLevels (2 ^ 28) (2 ^ 35) other.now }
        requires bit { bit < 90 }
        ensures sum { result ≡ sum_at self.now other.now bit }
        ensures size { unsigned_abs result ≤ 2 ^ 36 }
    {
        self.heights[bit] + other.heights[bit]
    }

    /// The sums of the heights in both rows.
    fn sums(&self, other: &Levels) -> Heights
        requires levels { AreLevels (2 ^ 28) (2 ^ 35) self.now }
        requires others { AreLevels (2 ^ 28) (2 ^ 35) other.now }
        ensures sums { result ≡ map (sum_at self.now other.now) (range_with_len 0 90) }
        ensures size { AreHeights (2 ^ 36) result }
    {
        let mut heights = [0; BITS];
        for bit in 0..BITS {
            heights[bit] = self.sum_at(other, bit);
        }
        heights
    }

    /// Two rows as one.
    pub fn with(&self, other: &Levels) -> Levels
        requires levels { AreLevels (2 ^ 28) (2 ^ 35) self.now }
        requires others { AreLevels (2 ^ 28) (2 ^ 35) other.now }
        ensures joined { result ≡ joined self.now other.now }
        ensures size { AreLevels (2 ^ 29) (2 ^ 36) result }
    {
        Levels {
            swing: self.swing + other.swing,
            heights: self.sums(other),
        }
    }

    /// Whether each bit is clear.
    fn are_clear(&self) -> bool
        requires { AreLevels (2 ^ 29) (2 ^ 36) self.now }
        ensures { result ≡ all_of 90 (is_clear self.now) }
    {
        let mut clear = true;
        for bit in 0..BITS {
            clear &= self.is_clear(bit);
        }
        clear
    }

    /// A bit as a number.
    fn bit(&self, bit: usize) -> u128
        requires { bit < 90 }
        ensures bit { result ≡ cond (is_one self.now bit) 1 0 }
        ensures most { result ≤ 1 }
    {
        if self.is_one(bit) { 1 } else { 0 }
    }

    /// The bits as a number, bit 0 the lowest.
    fn number(&self) -> u128
        ensures number { result ≡ number_of self.now }
        ensures width { result < 2 ^ 90 }
    {
        let mut bits = 0;
        for count in 0..BITS {
            bits = 2 * bits + self.bit(89 - count);
        }
        bits
    }

    /// The bits of a row that says them, bit 0 the lowest, which is 1.
    pub fn bits(&self) -> Option<u128>
        requires { AreLevels (2 ^ 29) (2 ^ 36) self.now }
        ensures some { IfSome result (λ bits. (says_bits self.now ≡ true) × (bits ≡ number_of self.now)) }
        ensures none { IfNone result (says_bits self.now ≡ false) }
        ensures width { IfSome result (λ bits. bits < 2 ^ 90) }
    {
        if self.is_one(0) && self.are_clear() {
            Some(self.number())
        } else {
            None
        }
    }
}
