//! A place of a word in a row, and the sum of its falls. Read next: `climb`.
ghost use Rattle.std.specs.Prelude.{◌≡◌, ℕ, ◌+◌, ◌*◌, ◌^◌, ◌<◌, ◌≤◌, length};
ghost use Rattle.luma_row.specs.KeptLight.{AreSums};
ghost use Rattle.luma_row.specs.Light.{IsRow};
ghost use Rattle.luma_row.specs.Place.{eighth, fits, pair_fall, score};
ghost use Rattle.luma_row.specs.KeptPlace.{IsNear};

use crate::light::{Sums, fall};
use crate::width::{end, width_of};

/// How many sync pairs a word has.
pub(crate) const PAIRS: u32 = 9;

/// Where a word lies, in sixteenths of a pixel from where the row begins.
#[derive(Clone, Copy)]
pub struct Place {
    /// Where the 1 of the first sync pair ends.
    pub first: u32,
    /// Where the 1 of the ninth ends, 80 cells behind it.
    pub last: u32,
}

impl Place {
    /// Where so many eighths of a cell of the word end.
    #[inline(always)]
    pub(crate) fn eighth(self, count: u32) -> u32
        requires near { IsNear self }
        requires count { count ≤ 727 }
        ensures value { result ≡ eighth self count }
        ensures most { result < 2 ^ 20 }
    {
        let apart = self.last - self.first;
        (640 * self.first + apart * count).saturating_sub(8 * apart) / 640
    }

    /// Whether the word fits into the row.
    pub(crate) fn fits(self, row: &[u8]) -> bool
        requires row { IsRow row.now }
        requires near { (self.first < 2 ^ 18) × (self.last < 2 ^ 18) }
        ensures fits { result ≡ fits (length row.now) self }
    {
        let width = width_of(row);
        self.first < self.last
            && self.last - self.first <= 80 * self.first
            && self.first + 89 * (self.last - self.first) / 80 <= end(width)
    }

    /// The fall of a sync pair.
    #[inline(always)]
    pub(crate) fn pair_fall(self, row: &[u8], sums: &Sums, pair: u32) -> u32
        requires row { IsRow row.now }
        requires sums { AreSums row.now sums.now }
        requires near { IsNear self }
        requires pair { pair < 9 }
        ensures value { result ≡ pair_fall row.now self pair }
        ensures most { result ≤ 2 ^ 26 }
    {
        let apart = self.last - self.first;
        let cells = apart * pair;
        let early = (80 * self.first + 10 * cells).saturating_sub(apart);
        let place = self.first + cells / 8;
        let behind = self.first + (10 * cells + apart) / 80;
        fall(row, sums, early / 80, place, behind)
    }

    /// The sum of the nine falls.
    pub(crate) fn score(self, row: &[u8], sums: &Sums) -> u32
        requires row { IsRow row.now }
        requires sums { AreSums row.now sums.now }
        requires near { IsNear self }
        ensures { result ≡ score row.now self }
    {
        let mut sum = 0;
        for pair in 0..PAIRS {
            sum += self.pair_fall(row, sums, pair);
        }
        sum
    }
}
