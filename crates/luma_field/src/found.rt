//! A row of a field that carries code, and which two of them belong together. Read next: `lines`.
ghost use Rattle.std.specs.Prelude.{◌≡◌, ◌^◌, ◌≤◌};
ghost use Rattle.luma_row.specs.KeptLevels.{AreLevels};
ghost use Rattle.luma_row.specs.Width.{grain};
ghost use Rattle.luma_row.specs.declared.width.TheConstants.{MAX_WIDTH};
ghost use Rattle.luma_field.specs.Field.{are_near, belong};

use luma_row::laws::a_row_is_narrower_than_two;
use luma_row::{CodeRow, Levels, MAX_WIDTH, Place};

/// A row that carries code, and its number in the field.
#[derive(Clone, Copy)]
pub struct FoundRow {
    pub number: u32,
    pub row: CodeRow,
}

/// A 720th of the row, in sixteenths of a pixel.
fn grain(width: u32) -> u32
    requires { width ≤ MAX_WIDTH }
    ensures value { result ≡ grain width }
    ensures most { result ≤ 2 ^ 7 }
{
    width * 16 / 720
}

impl FoundRow {
    /// In the place of one that is not there.
    pub(crate) fn none() -> FoundRow {
        FoundRow {
            number: 0,
            row: CodeRow {
                place: Place { first: 0, last: 0 },
                levels: Levels {
                    swing: 0,
                    heights: [0; 90],
                },
            },
        }
    }

    /// Whether two rows are at most 4 rows and 4 grains apart.
    fn is_near(&self, other: &FoundRow, width: u32) -> bool
        requires { width ≤ MAX_WIDTH }
        ensures { result ≡ are_near width self.now other.now }
    {
        let most = 4 * grain(width);
        self.number.abs_diff(other.number) <= 4
            && self.row.place.first.abs_diff(other.row.place.first) <= most
            && self.row.place.last.abs_diff(other.row.place.last) <= most
    }

    /// Whether two rows are near, and no bit is firm and another one in each.
    pub(crate) fn belongs_to(&self, other: &FoundRow, width: u32) -> bool
        requires first { AreLevels (2 ^ 28) (2 ^ 35) self.now.row.levels }
        requires second { AreLevels (2 ^ 28) (2 ^ 35) other.now.row.levels }
        requires width { width ≤ MAX_WIDTH }
        ensures { result ≡ belong width self.now other.now }
    {
        a_row_is_narrower_than_two();
        self.is_near(other, width) && !self.row.levels.contradicts(&other.row.levels)
    }
}
