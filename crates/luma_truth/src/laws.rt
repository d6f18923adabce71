//! What follows from the definitions alone: from a clean drawing to its word.
ghost use Rattle.std.specs.Prelude.{◌≡◌, ℕ, ◌+◌, ◌*◌, ◌^◌, ◌<◌, ◌≤◌, true, false, List, ◌∷◌, ◌++◌, length};
ghost use Rattle.luma_field.specs.Parts.{whole_parts};
ghost use Rattle.luma_field.specs.Raster.{RasterSize};
ghost use Rattle.luma_field.specs.Rows.{looked_at, SaysLines};
ghost use Rattle.luma_row.specs.declared.place.Place.{Place};
ghost use Rattle.luma_row.specs.declared.row.CodeRow.{CodeRow};
ghost use Rattle.luma_row.specs.Edges.{IsSharp};
ghost use Rattle.luma_row.specs.Levels.{number_of, says_bits};
ghost use Rattle.luma_row.specs.Light.{IsRow};
ghost use Rattle.luma_row.specs.Row.{IsCode, LiesAt};
ghost use Rattle.luma_truth.specs.Clean.{IsClean};
ghost use Rattle.luma_truth.specs.Drawing.{edge, has_bit, rounded, Drawing, FitsARow, IsDrawn};
ghost use Rattle.luma_truth.specs.Inside.{core, HasMargin, IsEnough, LiesInside};
ghost use Rattle.luma_truth.specs.Near.{IsNear};
ghost use Rattle.luma_truth.specs.Worked.{ten_hours};

use luma_row::laws::{a_row_is_sharp_or_not, a_row_says_one_thing};

/// A clean drawing is read: wherever it begins, however wide its cells are within 5 percent, at any two levels that are
/// 12 or more apart, a row of 720 pixels or more carries code and says its word, and all its code says it; and a field
/// has its line. Each pixel may differ from the mean of what it covers by a 22nd of the swing, so rounding does no harm.
/// The place of the word is the sharp one: both ends lie within a twelfth of a cell of the true ones.
pub fn a_clean_drawing_is_read()
    ensures read { (drawing : Drawing) (row : List ℕ) → IsRow row → IsDrawn drawing row → IsClean drawing (length row)
        → (code : CodeRow) × IsCode row code × (says_bits code.levels ≡ true)
        × (number_of code.levels ≡ drawing.word) }
    ensures only { (drawing : Drawing) (row : List ℕ) (code : CodeRow) → IsRow row → IsDrawn drawing row
        → IsClean drawing (length row) → IsCode row code
        → (says_bits code.levels ≡ true) × (number_of code.levels ≡ drawing.word) }
    ensures field { (drawing : Drawing) (raster : RasterSize) (field lines row : List ℕ) (before behind : List (List ℕ))
        → IsRow row → IsDrawn drawing row → IsClean drawing (length row)
        → looked_at raster (whole_parts raster.width field) ≡ before ++ (row ∷ behind) → length before < 20
        → SaysLines raster field lines → (first rest : List ℕ) × (lines ≡ first ++ (drawing.word ∷ rest)) }
    ensures place { (drawing : Drawing) (row : List ℕ) → IsRow row → IsDrawn drawing row → IsClean drawing (length row)
        → (place : Place) × IsSharp row place × IsNear drawing place }
    ensures rounded { (drawing : Drawing) (width : ℕ) → FitsARow drawing width → 720 ≤ width → drawing.noise ≤ 1
        → IsClean drawing width }
    ensures worked { FitsARow ten_hours 720 × IsClean ten_hours 720 }
{
    a_row_is_sharp_or_not();
    a_row_says_one_thing();
}

/// The premise in numbers: 720 pixels or more, noise of at most a 22nd of the swing (it is counted in halves of a
/// level), a word of 90 bits with its nine sync pairs, levels 12 or more apart among those of a pixel, cells within 5
/// percent of a 96th of the row, and a last cell that ends in it.
pub fn a_clean_drawing_in_numbers()
    ensures clean { (drawing : Drawing) (width : ℕ) → 720 ≤ width → 11 * drawing.noise ≤ drawing.swing
        → IsClean drawing width }
    ensures fits { (drawing : Drawing) (width : ℕ) → drawing.word < 2 ^ 90
        → ((pair : ℕ) → pair < 9 → has_bit drawing.word (10 * pair) ≡ true)
        → ((pair : ℕ) → pair < 9 → has_bit drawing.word (10 * pair + 1) ≡ false)
        → 12 ≤ drawing.swing → drawing.dark + drawing.swing ≤ 255
        → 95 * (10240 * width) ≤ 9600 * drawing.cell → 9600 * drawing.cell ≤ 105 * (10240 * width)
        → edge drawing 90 ≤ 10240 * width → FitsARow drawing width }
{}

/// A row that is drawn says the word of its drawing, at a place inside.
pub fn a_clean_drawing_says_its_word()
    ensures says { (drawing : Drawing) (row : List ℕ) (code : CodeRow) → IsDrawn drawing row → IsCode row code
        → LiesInside drawing code.place → HasMargin drawing code.place
        → (says_bits code.levels ≡ true) × (number_of code.levels ≡ drawing.word) }
    ensures carries { (drawing : Drawing) (row : List ℕ) (place : Place) → IsRow row → IsDrawn drawing row
        → LiesAt row place → LiesInside drawing place → HasMargin drawing place
        → (code : CodeRow) × IsCode row code × (code.place ≡ place) × (says_bits code.levels ≡ true)
        × (number_of code.levels ≡ drawing.word) }
{}

/// A row whose pixels are rounded is drawn, with noise of half a level. So is one of 720 pixels with the label
/// `10:00:00:00`, from pixel 18 on and between the levels 16 and 200. A place half a pixel from the true one, which is
/// 408 and 10,008, lies near it and has a margin.
pub fn a_rounded_row_is_drawn()
    ensures rounded { (drawing : Drawing) (width : ℕ) → FitsARow drawing width → 1 ≤ drawing.noise
        → IsDrawn drawing (rounded drawing width) }
    ensures fits { FitsARow ten_hours 720 }
    ensures near { IsNear ten_hours (record { first = 416; last = 10_016 }) }
    ensures enough { HasMargin ten_hours (record { first = 416; last = 10_016 }) }
{}

/// A field has the line of a clean drawing in one of the first 20 rows that are looked at.
pub fn a_field_has_the_line_of_a_clean_drawing()
    ensures { (drawing : Drawing) (raster : RasterSize) (field lines row : List ℕ) (before behind : List (List ℕ))
        (place : Place) → IsRow row → IsDrawn drawing row → LiesAt row place → LiesInside drawing place
        → HasMargin drawing place → looked_at raster (whole_parts raster.width field) ≡ before ++ (row ∷ behind)
        → length before < 20 → SaysLines raster field lines
        → (first rest : List ℕ) × (lines ≡ first ++ (drawing.word ∷ rest)) }
{
    a_row_says_one_thing();
}

/// A place whose two ends are within a twelfth of a cell of the true ones lies inside.
pub fn a_near_place_lies_inside()
    ensures { (drawing : Drawing) (row : List ℕ) (place : Place) → IsRow row → IsDrawn drawing row
        → IsNear drawing place → LiesInside drawing place }
{}

/// How much is enough: noise is counted in halves of a level. In cells with cores of 85 sixteenths noise of a twentieth
/// of the swing is borne, and rounding by levels that are 5 apart; of a swing of 184 noise may be 19 levels and no more.
pub fn the_margin_in_numbers()
    ensures twentieth { (swing noise core : ℕ) → 85 ≤ core → 10 * noise ≤ swing → IsEnough swing noise core }
    ensures rounded { (swing core : ℕ) → 85 ≤ core → 5 ≤ swing → IsEnough swing 1 core }
    ensures few_levels { IsEnough 5 1 85 × (IsEnough 4 1 85 → ⊥) }
    ensures loud { IsEnough 184 38 85 × (IsEnough 184 39 85 → ⊥) }
    ensures core_of_720 { core (record { first = 130; last = 9_250 }) ≡ 85 }
{}
