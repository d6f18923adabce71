//! The best of some, tried one after another. Read next: `place`.
ghost use Rattle.std.specs.Prelude.{◌≡◌, ℕ, ◌+◌, ◌<◌, ◌≤◌};
ghost use Rattle.luma_row.specs.KeptBest.{IsBestOf};

/// The first of the greatest so far, and its number.
#[derive(Clone, Copy)]
pub(crate) struct Best {
    pub(crate) sum: u32,
    pub(crate) number: u32,
}

impl Best {
    /// The first of all.
    pub(crate) fn first(sum: u32) -> Best
        ensures { (worth : ℕ → ℕ) → sum ≡ worth 0 → IsBestOf 1 worth result.sum result.number }
    {
        Best { sum, number: 0 }
    }

    /// The better of two. Of equal ones it is the first.
    #[inline(always)]
    pub(crate) fn or(self, sum: u32, number: u32) -> Best
        ensures { (worth : ℕ → ℕ) → IsBestOf number worth self.sum self.number → sum ≡ worth number
            → IsBestOf (number + 1) worth result.sum result.number }
    {
        if self.sum < sum {
            Best { sum, number }
        } else {
            self
        }
    }
}
