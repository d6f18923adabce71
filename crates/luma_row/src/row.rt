//! A row of pixels, read. Read next: `levels`.
ghost use Rattle.std.specs.Prelude.{◌≡◌, ◌^◌, IfNone, IfSome};
ghost use Rattle.luma_row.specs.declared.row.CodeRow.{CodeRow};
ghost use Rattle.luma_row.specs.declared.place.Place.{Place};
ghost use Rattle.luma_row.specs.KeptExtremes.{AreExtremes};
ghost use Rattle.luma_row.specs.KeptLevels.{AreLevels};
ghost use Rattle.luma_row.specs.KeptLight.{AreSums};
ghost use Rattle.luma_row.specs.KeptPlace.{IsNear};
ghost use Rattle.luma_row.specs.Light.{IsRow};
ghost use Rattle.luma_row.specs.Row.{has_contrast, IsCode, IsSought, LiesAt};

use crate::cells::{cells_of, counts, swing_of};
use crate::climb::refine;
use crate::coarse::{Falls, best_coarse, fall_along};
use crate::earliest::earliest;
use crate::edges::sharp_place;
use crate::extremes::Extremes;
use crate::heights::heights_of;
use crate::levels::Levels;
use crate::light::{EVEN, SUMS, Sums, sum_up};
use crate::place::Place;
use crate::width::MAX_WIDTH;

/// A row that carries code: where the word lies, and what its cells say.
#[derive(Clone, Copy)]
pub struct CodeRow {
    pub place: Place,
    pub levels: Levels,
}

/// The tables in which a row is read.
#[derive(Drop)]
pub struct RowReader {
    sums: Sums,
    falls: Falls,
    sums_of_falls: Falls,
}

/// Whether two pixels are eight levels apart.
fn has_contrast(row: &[u8], extremes: Extremes) -> bool
    requires { AreExtremes row.now extremes }
    ensures { result ≡ has_contrast row.now }
{
    let _ = row;
    8 <= extremes.contrast()
}

impl RowReader {
    /// Tables for any row.
    pub fn new() -> RowReader {
        RowReader {
            sums: [0; SUMS],
            falls: [EVEN; MAX_WIDTH],
            sums_of_falls: [EVEN; MAX_WIDTH],
        }
    }

    /// Reads a row. Nothing is said of a row without code.
    pub fn read(&mut self, row: &[u8]) -> Option<CodeRow>
        requires { IsRow row.now }
        ensures code { IfSome result (λ code. IsCode row.now code) }
        ensures none { IfNone result ((code : CodeRow) → IsCode row.now code → ⊥) }
        ensures size { IfSome result (λ code. AreLevels (2 ^ 28) (2 ^ 35) code.levels) }
    {
        let extremes = Extremes::of(row);
        if !has_contrast(row, extremes) {
            return None;
        }
        sum_up(row, &mut self.sums);
        let place = self.place(row, extremes)?;
        let cells = cells_of(row, &self.sums, extremes.darkest, place);
        let swing = swing_of(&cells);
        if !counts(place, &cells, swing) {
            return None;
        }
        let heights = heights_of(&cells);
        Some(CodeRow {
            place,
            levels: Levels { swing, heights },
        })
    }

    /// Where a word lies in a row, if one does.
    fn place(&mut self, row: &[u8], extremes: Extremes) -> Option<Place>
        requires row { IsRow row.now }
        requires sums { AreSums row.now self.old.sums }
        requires extremes { AreExtremes row.now extremes }
        ensures lies { IfSome result (LiesAt row.now) }
        ensures none { IfNone result ((place : Place) → LiesAt row.now place → ⊥) }
        ensures near { IfSome result IsNear }
        ensures sums { AreSums row.now self.new.sums }
    {
        match sharp_place(row, &self.sums, extremes) {
            Some(place) => Some(place),
            None => self.sought(row),
        }
    }

    /// Where a word is found that is sought, if the pairs fall anywhere.
    fn sought(&mut self, row: &[u8]) -> Option<Place>
        requires row { IsRow row.now }
        requires sums { AreSums row.now self.old.sums }
        ensures sought { IfSome result (IsSought row.now) }
        ensures none { IfNone result ((place : Place) → IsSought row.now place → ⊥) }
        ensures near { IfSome result IsNear }
        ensures sums { AreSums row.now self.new.sums }
    {
        fall_along(row, &self.sums, &mut self.falls);
        let coarse = best_coarse(row, &self.falls, &mut self.sums_of_falls);
        if coarse.sum <= 9 * EVEN {
            return None;
        }
        let deepest = refine(row, &self.sums, coarse.place);
        Some(earliest(row, &self.sums, deepest))
    }
}
