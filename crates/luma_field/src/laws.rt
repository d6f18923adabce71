//! What follows from the definitions alone.
ghost use Rattle.std.specs.Prelude.{◌≡◌, ℕ, ◌*◌, ◌<◌, ◌≤◌, ◌++◌, List, length, take, Option};
ghost use Rattle.std.specs.List.{concat, All, AllZip};
ghost use Rattle.luma_row.specs.declared.row.CodeRow.{CodeRow};
ghost use Rattle.luma_field.specs.declared.found.FoundRow.{FoundRow};
ghost use Rattle.luma_field.specs.declared.raster.TheConstants.{MAX_HEIGHT, MAX_ROWS};
ghost use Rattle.luma_field.specs.Field.{IsLine};
ghost use Rattle.luma_field.specs.Parts.{whole_parts};
ghost use Rattle.luma_field.specs.Raster.{RasterSize};
ghost use Rattle.luma_field.specs.Rows.{found_from, looked_at, AreFoundIn, Says, SaysLines};

use luma_row::laws::{a_row_is_sharp_or_not, a_row_says_one_thing};

/// The rows of the highest field, and how many are looked at.
pub fn the_limits_are_these()
    ensures rows { MAX_ROWS ≡ 40 }
    ensures height { MAX_HEIGHT ≡ 4_096 }
{}

/// A field says one list of lines, at most 20; each has 90 bits, of which the first is 1.
pub fn a_field_says_its_lines()
    ensures some { (raster : RasterSize) (field : List ℕ) → (lines : List ℕ) × SaysLines raster field lines }
    ensures one { (raster : RasterSize) (field a b : List ℕ) → SaysLines raster field a → SaysLines raster field b
        → a ≡ b }
    ensures few { (raster : RasterSize) (field lines : List ℕ) → SaysLines raster field lines → length lines ≤ 20 }
    ensures bits { (raster : RasterSize) (field lines : List ℕ) → SaysLines raster field lines → All IsLine lines }
{
    a_row_is_sharp_or_not();
    a_row_says_one_thing();
}

/// The first 20 rows with code are found, and no further one: of 20 or fewer all, and of more the first 20.
pub fn twenty_rows_are_found()
    ensures { (raster : RasterSize) (rows : List (List ℕ)) (found : List FoundRow) → AreFoundIn raster rows found
        → (all : List FoundRow) × (says : List (Option CodeRow)) × AllZip Says (looked_at raster rows) says
        × (all ≡ found_from raster.first says) × (found ≡ take 20 all) }
{}

/// Parts of one length that were joined are taken apart again, where less than a part lies behind them; and those of
/// a front come first, whatever follows it.
pub fn joined_parts_are_taken_apart()
    ensures first { (size : ℕ) (front more : List ℕ) → (rest : List (List ℕ))
        × (whole_parts size (front ++ more) ≡ whole_parts size front ++ rest) }
    ensures long { (size : ℕ) (parts : List (List ℕ)) → All (λ part. length part ≡ size) parts
        → length (concat parts) ≡ length parts * size }
    ensures apart { (size : ℕ) (parts : List (List ℕ)) (rest : List ℕ) → All (λ part. length part ≡ size) parts
        → length rest < size → whole_parts size (concat parts ++ rest) ≡ parts }
{}
