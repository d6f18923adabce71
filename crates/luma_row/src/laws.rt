//! What follows from the definitions alone.
ghost use Rattle.std.specs.Prelude.{◌≡◌, ℕ, ◌+◌, ◌*◌, ◌^◌, ◌<◌, ◌≤◌, ◌⊎◌, true, unsigned_abs, List, length};
ghost use Rattle.luma_row.specs.declared.levels.Levels.{Levels};
ghost use Rattle.luma_row.specs.declared.light.TheConstants.{EVEN};
ghost use Rattle.luma_row.specs.declared.place.Place.{Place};
ghost use Rattle.luma_row.specs.declared.row.CodeRow.{CodeRow};
ghost use Rattle.luma_row.specs.declared.width.TheConstants.{MAX_WIDTH, MIN_WIDTH};
ghost use Rattle.luma_row.specs.Climb.{halved, Climbs, IsPlace, Refines};
ghost use Rattle.luma_row.specs.Earliest.{back, IsEarliestAt, IsNowhereEarlier};
ghost use Rattle.luma_row.specs.Edges.{is_falling, IsNextEdge, IsSharp};
ghost use Rattle.luma_row.specs.KeptLevels.{AreLevels};
ghost use Rattle.luma_row.specs.Levels.{height_at, says_bits};
ghost use Rattle.luma_row.specs.Row.{IsCode, IsSought, LiesAt};
ghost use Rattle.luma_row.specs.Width.{distance, distances, end, grain, narrowest, ten_cells, widest};

/// The widths of rows, and the fall of an even place.
pub fn the_limits_are_these()
    ensures least { MIN_WIDTH ≡ 360 }
    ensures most { MAX_WIDTH ≡ 4_096 }
    ensures even { EVEN ≡ 2 ^ 25 }
{}

/// A row of 720 pixels: its cells, the grain of what is looked at, and the distances of 80 cells.
pub fn a_row_of_720_pixels()
    ensures cells { ten_cells 720 ≡ 1_200 }
    ensures grain { grain 720 ≡ 16 }
    ensures end { end 720 ≡ 11_584 }
    ensures narrowest { narrowest 720 ≡ 9_120 }
    ensures widest { widest 720 ≡ 10_080 }
    ensures distances { distances 720 ≡ 31 }
    ensures middle { distance 720 15 ≡ 9_600 }
{}

/// A word lies in one place of a row, and the row says one thing.
pub fn a_row_says_one_thing()
    ensures place { (row : List ℕ) (a b : Place) → LiesAt row a → LiesAt row b → a ≡ b }
    ensures code { (row : List ℕ) (a b : CodeRow) → IsCode row a → IsCode row b → a ≡ b }
{}

/// A word that is sought lies at a place where all its pairs fall, and at none before it; or at the one with the deepest
/// falls, where they fall at none. The one with the deepest falls is eight cells back from eight cells later.
pub fn a_word_lies_at_the_earliest_place()
    ensures earliest { (row : List ℕ) (place : Place) (sought : IsSought row place)
        → ((cells : ℕ) × IsEarliestAt row sought.deepest place cells) ⊎ IsNowhereEarlier row sought.deepest place }
    ensures eight { (place : Place) → back place 8 ≡ place }
{}

/// The deepest falls are climbed to from the coarse place: in six moves by two grains each, then in six by half of that,
/// and so on: eight times six in all.
pub fn a_place_is_climbed_to_in_eight_steps()
    ensures steps { (row : List ℕ) (coarse place : Place) → IsPlace row coarse place
        → (near : Place) × Refines row (2 * grain (length row)) 7 coarse near
        × Climbs row (halved (2 * grain (length row)) 7) 6 near place }
{}

/// What holds of the levels of a row holds of those of two rows.
pub fn a_row_is_narrower_than_two()
    ensures { (levels : Levels) → AreLevels (2 ^ 28) (2 ^ 35) levels → AreLevels (2 ^ 29) (2 ^ 36) levels }
{}

/// Each bit of a row that says its bits is an eighth of the way to its level, or more.
pub fn a_bit_that_is_said_is_clear()
    ensures { (levels : Levels) (bit : ℕ) → says_bits levels ≡ true → bit < 90
        → 10 * levels.swing ≤ 9 * unsigned_abs (height_at levels bit) }
{}

/// A row has a sharp place or none; and where the light falls anywhere behind a pixel, there is a first such edge.
pub fn a_row_is_sharp_or_not()
    ensures sharp { (row : List ℕ) → ((place : Place) × IsSharp row place) ⊎ ((place : Place) → ¬ IsSharp row place) }
    ensures next { (row : List ℕ) (from pixel : ℕ) → from ≤ pixel → pixel < length row → is_falling row pixel ≡ true
        → (first : ℕ) × IsNextEdge row from first × (first ≤ pixel) }
{}
