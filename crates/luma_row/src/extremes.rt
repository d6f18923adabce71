//! The darkest and the lightest pixel of a row. Read next: `edges`.
ghost use Rattle.std.specs.Prelude.{◌≡◌, ◌+◌, ◌-◌, ◌/◌, min, max};
ghost use Rattle.std.specs.List.{fold};
ghost use Rattle.luma_row.specs.KeptExtremes.{AreExtremes};
ghost use Rattle.luma_row.specs.Row.{has_contrast};

/// The darkest and the lightest pixel of a row.
#[derive(Clone, Copy)]
pub(crate) struct Extremes {
    pub(crate) darkest: u8,
    pub(crate) lightest: u8,
}

impl Extremes {
    /// Those of a row.
    pub(crate) fn of(row: &[u8]) -> Extremes
        ensures { AreExtremes row.now result }
    {
        let mut darkest = 255;
        let mut lightest = 0;
        for at in 0..row.len() {
            darkest = darkest.min(row[at]);
            lightest = lightest.max(row[at]);
        }
        Extremes { darkest, lightest }
    }

    /// By how many levels they differ.
    pub(crate) fn contrast(self) -> u8
        ensures { result ≡ self.lightest - self.darkest }
    {
        self.lightest.saturating_sub(self.darkest)
    }

    /// The least level that is no nearer to the darkest than to the lightest.
    pub(crate) fn middle(self) -> u8
        ensures { result ≡ (self.darkest + self.lightest + 1) / 2 }
    {
        ((u16::from(self.darkest) + u16::from(self.lightest) + 1) / 2) as u8
    }
}
