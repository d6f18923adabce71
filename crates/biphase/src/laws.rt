//! What follows from the tolerance alone, and the numbers that code and definitions share.
ghost use Rattle.std.specs.Prelude.{◌≡◌, ℕ, ◌+◌, ◌-◌, ◌*◌, ◌^◌, ◌<◌, ◌≤◌, ◌↔◌, ◌⊎◌, List, [], ◌∷◌, drop, min, max, All};
ghost use Rattle.std.specs.Prelude.{Bool};
ghost use Rattle.std.specs.Int.{abs_diff};
ghost use Rattle.biphase.specs.declared.cell.Cell.{Cell};
ghost use Rattle.limits.specs.declared.recording.TheConstants.{MAX_INTERVAL};
ghost use Rattle.biphase.specs.declared.pair.PairKind.{PairKind};
ghost use Rattle.biphase.specs.declared.profile.Profile.{Profile};
ghost use Rattle.biphase.specs.declared.profile.TheConstants.{NORMAL, WORN, ROUGH};
ghost use Rattle.biphase.specs.Latest.{Latest};
ghost use Rattle.biphase.specs.declared.profile.Profile.TheVariants.{Normal, Worn, Rough};
ghost use Rattle.biphase.specs.Tolerance.{kept_at_lock, kept_next, latest_with, sum_of, LooksAtLast};
ghost use Rattle.biphase.specs.Pair.{AreEqual, AreUnequal, IsKind};
ghost use Rattle.biphase.specs.Tolerance.{AreHalves, IsFirstHalf};
ghost use Rattle.biphase.specs.Chain.{flat, Begins, Follow, IsChain, Kinds, IsNextZero};
ghost use Rattle.biphase.specs.Chain.{IsNextOne, bits};
ghost use Rattle.biphase.specs.Mean.{StayFromEachZero};
ghost use Rattle.biphase.specs.Zeros.{GreaterIsZero};
ghost use Rattle.biphase.specs.declared.cell.Cell.TheVariants.{Zero};
ghost use Rattle.biphase.specs.declared.shaper.TheConstants.{MIN_SHAPED, MAX_SHAPED};
ghost use Rattle.biphase.specs.Shape.{Shape, IsShape, shaped};

/// The numbers of the three tolerances.
pub fn the_profiles_have_these_numbers()
    ensures normal { NORMAL ≡ record {
      cell = 8;
      half = 16;
      equal = record { part = 2; whole = 3 };
      unequal = record { part = 2; whole = 5 };
      least_half = record { part = 3; whole = 8 };
      greatest_half = record { part = 5; whole = 8 };
    } }
    ensures worn { WORN ≡ record {
      cell = 6;
      half = 12;
      equal = record { part = 2; whole = 3 };
      unequal = record { part = 3; whole = 8 };
      least_half = record { part = 3; whole = 8 };
      greatest_half = record { part = 2; whole = 3 };
    } }
    ensures rough { ROUGH ≡ record {
      least_cell = record { part = 3; whole = 16 };
      greatest_cell = record { part = 5; whole = 16 };
      least_half = record { part = 3; whole = 40 };
      greatest_half = record { part = 7; whole = 40 };
      equal = record { part = 2; whole = 3 };
      unequal = record { part = 1; whole = 3 };
    } }
{}

/// The tests of the normal tolerance in numbers: cells within an eighth, halves within a sixteenth.
pub fn the_normal_tests_are_these()
    ensures zero { (latest : Latest) (x : ℕ)
        → let c = latest.last in IsNextZero Normal latest x ↔ (8 * abs_diff x c ≤ c) }
    ensures half { (latest : Latest) (x : ℕ)
        → let c = latest.last in IsFirstHalf Normal latest x ↔ ((3 * c ≤ 8 * x) × (8 * x ≤ 5 * c)) }
    ensures one { (latest : Latest) (x y : ℕ) → let c = latest.last in IsNextOne Normal latest x y
        ↔ ((8 * abs_diff (x + y) c ≤ c) × (16 * abs_diff x y ≤ x + y)) }
    ensures equal { (a b : ℕ) → a ≤ b → AreEqual Normal a b ↔ (2 * b ≤ 3 * a) }
    ensures unequal { (a b : ℕ) → a ≤ b → AreUnequal Normal a b ↔ ((3 * a < 2 * b) × (2 * b ≤ 5 * a)) }
{}

/// The tests of the tolerance for worn recordings: cells within a sixth, halves within a twelfth.
pub fn the_worn_tests_are_these()
    ensures zero { (latest : Latest) (x : ℕ)
        → let c = latest.last in IsNextZero Worn latest x ↔ (6 * abs_diff x c ≤ c) }
    ensures half { (latest : Latest) (x : ℕ)
        → let c = latest.last in IsFirstHalf Worn latest x ↔ ((3 * c ≤ 8 * x) × (3 * x ≤ 2 * c)) }
    ensures one { (latest : Latest) (x y : ℕ) → let c = latest.last in IsNextOne Worn latest x y
        ↔ ((6 * abs_diff (x + y) c ≤ c) × (12 * abs_diff x y ≤ x + y)) }
    ensures equal { (a b : ℕ) → a ≤ b → AreEqual Worn a b ↔ (2 * b ≤ 3 * a) }
    ensures unequal { (a b : ℕ) → a ≤ b → AreUnequal Worn a b ↔ ((3 * a < 2 * b) × (3 * b ≤ 8 * a)) }
{}

/// The tests of the tolerance for hissy and dull recordings, by the sum of the lengths of the latest
/// four cells: cells from 3/16 to 5/16 of it, and halves from 3/40 to 7/40.
pub fn the_rough_tests_are_these()
    ensures zero { (latest : Latest) (x : ℕ) → let m = sum_of latest in IsNextZero Rough latest x
        ↔ ((3 * m ≤ 16 * x) × (16 * x ≤ 5 * m)) }
    ensures half { (latest : Latest) (x : ℕ) → let m = sum_of latest in IsFirstHalf Rough latest x
        ↔ ((3 * m ≤ 40 * x) × (40 * x ≤ 7 * m)) }
    ensures one { (latest : Latest) (x y : ℕ) → let m = sum_of latest in IsNextOne Rough latest x y
        ↔ ((3 * m ≤ 40 * x) × (40 * x ≤ 7 * m) × (3 * m ≤ 40 * y) × (40 * y ≤ 7 * m)
        × (3 * m ≤ 16 * (x + y)) × (16 * (x + y) ≤ 5 * m)) }
    ensures equal { (a b : ℕ) → a ≤ b → AreEqual Rough a b ↔ (2 * b ≤ 3 * a) }
    ensures unequal { (a b : ℕ) → a ≤ b → AreUnequal Rough a b ↔ ((3 * a < 2 * b) × (b ≤ 3 * a)) }
{}

/// What is kept of the cells so far: the length of the last one, or the lengths of the latest four, of
/// which at a lock the first cell counts four times, and the oldest leaves with each cell more.
pub fn the_latest_cells_are_kept()
    ensures last { (profile : Profile) (latest : Latest) (c : ℕ) → ((kept_at_lock profile c).last ≡ c)
        × ((kept_next profile latest c).last ≡ c) }
    ensures lock { (c : ℕ) → sum_of (kept_at_lock Rough c) ≡ 4 * c }
    ensures next { (latest : Latest) (c : ℕ) → kept_next Rough latest c
        ≡ latest_with c latest.last latest.second latest.third }
    ensures alone { (profile : Profile) → LooksAtLast profile → (latest : Latest) (c : ℕ)
        → kept_next profile latest c ≡ kept_at_lock profile c }
{}

/// A pair is of one kind, whatever the order of its intervals.
pub fn a_pair_is_of_one_kind()
    ensures one { (profile : Profile) (a b : ℕ) (kind other : PairKind) → IsKind profile a b kind
        → IsKind profile a b other → kind ≡ other }
    ensures order { (profile : Profile) (a b : ℕ) (kind : PairKind) → IsKind profile a b kind
        → IsKind profile b a kind }
{}

/// If a cell is compared with the one before it, two neighbours are equal if both are zeros or
/// both are halves, and else unequal, and the greater of them is the zero. So the kind of a pair shows
/// what it is.
pub fn kinds_tell_zeros_from_halves()
    ensures zeros { (profile : Profile) → LooksAtLast profile → (c x : ℕ)
        → IsNextZero profile (kept_at_lock profile c) x → AreEqual profile c x }
    ensures halves { (profile : Profile) → LooksAtLast profile → (x y : ℕ) → AreHalves profile x y
        → AreEqual profile x y }
    ensures neighbours { (profile : Profile) → LooksAtLast profile → (a b x y : ℕ) → AreHalves profile a b
        → IsNextOne profile (kept_at_lock profile (a + b)) x y → AreEqual profile b x }
    ensures rising { (profile : Profile) → LooksAtLast profile → (a b x : ℕ) → 1 ≤ x → AreHalves profile a b
        → IsNextZero profile (kept_at_lock profile (a + b)) x → AreUnequal profile b x × (b < x) }
    ensures falling { (profile : Profile) → LooksAtLast profile → (c x y : ℕ) → 1 ≤ x
        → IsNextOne profile (kept_at_lock profile c) x y → AreUnequal profile c x × (x < c) }
{}

/// In a chain the kinds of neighbouring intervals are as its cells say.
pub fn kinds_are_as_the_cells_say()
    ensures { (profile : Profile) (cells : List Cell) → IsChain profile cells → Kinds profile cells }
{}

/// No interval can be both a zero and the first half of a one, and each first half of a one that
/// follows passes the test of first halves.
pub fn no_zero_is_a_half()
    ensures apart { (profile : Profile) (latest : Latest) (x : ℕ) → 1 ≤ x → IsNextZero profile latest x
        → ¬ IsFirstHalf profile latest x }
    ensures admitted { (profile : Profile) (latest : Latest) (x y : ℕ) → IsNextOne profile latest x y
        → IsFirstHalf profile latest x }
{}

/// How far apart the two are under the normal tolerance, as ratios of the lesser to the greater:
/// equal neighbours from 105/136 on, a zero and a half from 105/256 to 17/28.
pub fn the_normal_ratios_are_these()
    ensures zeros { (c x : ℕ) → IsNextZero Normal (kept_at_lock Normal c) x → 105 * max c x ≤ 136 * min c x }
    ensures halves { (x y : ℕ) → AreHalves Normal x y → 105 * max x y ≤ 136 * min x y }
    ensures neighbours { (a b x y : ℕ) → AreHalves Normal a b → IsNextOne Normal (kept_at_lock Normal (a + b)) x y
        → 105 * max b x ≤ 136 * min b x }
    ensures rising { (a b x : ℕ) → AreHalves Normal a b → IsNextZero Normal (kept_at_lock Normal (a + b)) x
        → (105 * x ≤ 256 * b) × (28 * b ≤ 17 * x) }
    ensures falling { (c x y : ℕ) → IsNextOne Normal (kept_at_lock Normal c) x y
        → (105 * c ≤ 256 * x) × (28 * x ≤ 17 * c) }
{}

/// How far apart they are under the tolerance for worn recordings: equal neighbours from 55/78 on, a
/// zero and a half from 55/144 to 13/20.
pub fn the_worn_ratios_are_these()
    ensures zeros { (c x : ℕ) → IsNextZero Worn (kept_at_lock Worn c) x → 55 * max c x ≤ 78 * min c x }
    ensures halves { (x y : ℕ) → AreHalves Worn x y → 55 * max x y ≤ 78 * min x y }
    ensures neighbours { (a b x y : ℕ) → AreHalves Worn a b → IsNextOne Worn (kept_at_lock Worn (a + b)) x y
        → 55 * max b x ≤ 78 * min b x }
    ensures rising { (a b x : ℕ) → AreHalves Worn a b → IsNextZero Worn (kept_at_lock Worn (a + b)) x
        → (55 * x ≤ 144 * b) × (20 * b ≤ 13 * x) }
    ensures falling { (c x y : ℕ) → IsNextOne Worn (kept_at_lock Worn c) x y
        → (55 * c ≤ 144 * x) × (20 * x ≤ 13 * c) }
{}

/// Of two lists of cells that follow the same latest cells at the front of one list of intervals, one
/// is a front of the other.
pub fn chains_at_one_place_agree()
    ensures { (profile : Profile) (latest : Latest) (one two : List Cell) (intervals : List ℕ)
        → Follow profile latest one → Follow profile latest two
        → Begins (flat one) intervals → Begins (flat two) intervals
        → Begins one two ⊎ Begins two one }
{}

/// In the intervals of a chain the greater interval of an unequal pair is one of its zeros.
pub fn the_greater_of_an_unequal_pair_is_a_zero()
    ensures { (profile : Profile) (cells : List Cell) (k a b : ℕ) (rest : List ℕ)
        → IsChain profile cells → drop k (flat cells) ≡ a ∷ b ∷ rest → AreUnequal profile a b
        → GreaterIsZero cells k a b }
{}

/// How the tolerances are related: cells of the worn tolerance that stay, from each zero on,
/// within a quarter of the mean of the latest four keep the rough one.
pub fn worn_cells_near_the_mean_are_rough()
    ensures { (cells : List Cell) → IsChain Worn cells → StayFromEachZero cells → IsChain Rough cells }
{}

/// Cells of the normal tolerance need not keep the rough one: these grow by an eighth each.
pub fn a_steep_ramp_is_normal_and_not_rough()
    ensures normal { IsChain Normal (Zero 4096 ∷ Zero 4608 ∷ Zero 5184 ∷ Zero 5832 ∷ []) }
    ensures rough { ¬ IsChain Rough (Zero 4096 ∷ Zero 4608 ∷ Zero 5184 ∷ Zero 5832 ∷ []) }
{}

/// Cells that are made last from 16 ticks to 2^23 - 1.
pub fn made_cells_last_so_long()
    ensures least { MIN_SHAPED ≡ 16 }
    ensures greatest { MAX_SHAPED ≡ 2 ^ 23 - 1 }
{}

/// The cells of a shape are a chain of the normal tolerance, with the bits that they were made for.
pub fn shaped_cells_are_a_chain()
    ensures chain { (shape : Shape) (list : List Bool) → IsShape shape → IsChain Normal (shaped shape list) }
    ensures bits { (shape : Shape) (list : List Bool) → bits (shaped shape list) ≡ list }
    ensures intervals { (shape : Shape) (list : List Bool) → IsShape shape
        → All (λ x. (1 ≤ x) × (x ≤ MAX_INTERVAL)) (flat (shaped shape list)) }
{}
