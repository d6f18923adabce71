//! What follows from the definitions alone.
ghost use Rattle.std.specs.Prelude.{◌≡◌, ℕ, ◌+◌, ◌-◌, ◌*◌, ◌^◌, ◌<◌, ◌≤◌, List, [], ◌∷◌, ◌++◌, pos, drop, length};
ghost use Rattle.std.specs.Prelude.{ℤ, ◌+ℤ◌, ◌≤ℤ◌, reverse};
ghost use Rattle.std.specs.List.{AllByRecursion};
ghost use Rattle.cell_path.specs.declared.cell.Bit.{Bit};
ghost use Rattle.cell_path.specs.declared.cell.Cell.{Cell};
ghost use Rattle.cell_path.specs.declared.cell.Sign.{Sign};
ghost use Rattle.cell_path.specs.declared.cell.Step.{Step};
ghost use Rattle.cell_path.specs.declared.cell.Way.{Way};
ghost use Rattle.cell_path.specs.declared.follow.TheConstants.{DELAY, EVERY, FIRST};
ghost use Rattle.cell_path.specs.declared.lacks.TheConstants.{LATEST};
ghost use Rattle.cell_path.specs.declared.lengths.TheConstants.{EARLY, JUMP, LENGTHS, PLACES};
ghost use Rattle.cell_path.specs.declared.placed.Placed.{Placed};
ghost use Rattle.cell_path.specs.declared.waiting.TheConstants.{ROOM};
ghost use Rattle.cell_path.specs.Best.{EndsIn, IsBest, IsBestOfAll};
ghost use Rattle.cell_path.specs.Decided.{end_behind, in_time, joined, latest_of, AreDecided, AreDecidedInAll};
ghost use Rattle.cell_path.specs.Lengths.{length_in, spelled};
ghost use Rattle.cell_path.specs.Number.{IsBeginning, IsEnd};
ghost use Rattle.cell_path.specs.Scores.{AreSteps};
ghost use Rattle.cell_path.specs.Spaced.{AreApart, AreNear, IsInList};
ghost use Rattle.cell_path.specs.Unfinished.{lack};

/// The lengths: from 4 to 24 each, from 26 to 48 each second, from 52 to 96 each fourth.
pub fn the_lengths_are_these()
    ensures lengths { LENGTHS ≡ spelled }
    ensures count { length LENGTHS ≡ PLACES }
    ensures jump { JUMP ≡ 3 }
    ensures early { EARLY ≡ pos (2 ^ 28) }
{}

/// There is one best path for each end.
pub fn there_is_one_best_path()
    ensures { (lengths : List ℕ) (steps : List Step) (place : ℕ) (sign : Sign) (path other : List Cell)
        → IsBest lengths steps place sign path → IsBest lengths steps place sign other → path ≡ other }
{}

/// What comes before the latest cell of a best path is the best path that ends as it does.
pub fn what_stands_before_is_best()
    ensures { (lengths : List ℕ) (steps : List Step) (place before_place : ℕ) (sign before_sign : Sign) (cell : Cell)
        (before : List Cell) → IsBest lengths steps place sign (cell ∷ before) → EndsIn before_place before_sign before
        → IsBest lengths (drop (length_in lengths cell.place) steps) before_place before_sign before }
{}

/// In a sound of 16 bits the best scores lie near one another: those of the paths that end with a step, in whichever
/// length and sign, within 2^29, and those of what comes before a cell of one length within 2^24; and what the best
/// paths to two of the latest steps lack within 2^30. So a number of 32 bits tells which of two is the greater.
pub fn the_best_scores_lie_near_one_another()
    ensures ends { (steps : List Step) (place other_place : ℕ) (sign other_sign : Sign) (number other : ℤ)
        (bit other_bit : Bit) → AreSteps steps → IsEnd LENGTHS steps place sign number bit
        → IsEnd LENGTHS steps other_place other_sign other other_bit → number ≤ℤ (other +ℤ pos (2 ^ 29)) }
    ensures beginnings { (steps : List Step) (ago place : ℕ) (sign other_sign : Sign) (number other : ℤ)
        (way other_way : Way) → AreSteps steps → place < 45 → IsBeginning LENGTHS steps ago place sign number way
        → IsBeginning LENGTHS steps ago place other_sign other other_way → number ≤ℤ (other +ℤ pos (2 ^ 24)) }
    ensures lacks { (steps : List Step) (ago other : ℕ) (path others : List Cell) → AreSteps steps → ago < LATEST
        → other < LATEST → FIRST ≤ length steps → IsBestOfAll LENGTHS (drop ago steps) path
        → IsBestOfAll LENGTHS (drop other steps) others
        → lack LENGTHS (drop ago steps) path ≤ℤ (lack LENGTHS (drop other steps) others +ℤ pos (2 ^ 30)) }
{}

/// When a decision falls due, what it leaves open, and how many cells it can decide.
pub fn the_decisions_are_these()
    ensures delay { DELAY ≡ 800 }
    ensures every { EVERY ≡ 1_024 }
    ensures first { FIRST ≡ 2 * EVERY }
    ensures latest { LATEST ≡ 96 }
    ensures room { 4 * ROOM ≡ FIRST }
{}

/// The steps of a sound decide one list of cells, however they come.
pub fn one_list_is_decided()
    ensures { (steps : List Step) (all others : List Placed) → AreDecided steps all → AreDecided steps others
        → all ≡ others }
{}

/// A sound of fewer steps than the first decision needs decides nothing, whatever paths it has: with
/// fewer than four steps all of them begin before it does.
pub fn a_short_sound_decides_nothing()
    ensures { (steps : List Step) (all : List Placed) → length steps < FIRST → AreDecided steps all → all ≡ [] }
{}

/// What is decided stays: one step more decides more cells in front of it, or none.
pub fn what_is_decided_stays()
    ensures { (step : Step) (steps : List Step) (all : List Placed) → AreDecided (step ∷ steps) all
        → (before new : List Placed) × AreDecided steps before × (all ≡ new ++ before) }
{}

/// In the order of time, what is decided later comes after what was decided before.
pub fn what_is_decided_comes_in_time()
    ensures { (new before : List Placed)
        → in_time (new ++ before) ≡ in_time before ++ joined (latest_of before) (reverse new) }
{}

/// When a sound ends, one list of cells is decided in all.
pub fn one_list_is_decided_in_all()
    ensures { (steps : List Step) (all others : List Placed) → AreDecidedInAll steps all → AreDecidedInAll steps others
        → all ≡ others }
{}

/// The cells that are decided in all cover the sound: each ends two steps behind the one before it at least, and the
/// last with the sound, or less than 25 steps before, a quarter of the longest cell.
pub fn the_cells_cover_the_sound()
    ensures { (steps : List Step) (all : List Placed) → AreDecidedInAll steps all
        → AreApart all × (end_behind 0 all ≤ length steps) × (length steps ≤ end_behind 0 all + 24) }
{}

/// And they lie near one another: each ends at most 120 steps behind the one before it, the longest cell and a quarter
/// of it, and has a length of the list, from 4 to 96 steps.
pub fn the_cells_of_a_sound_lie_near_one_another()
    ensures near { (steps : List Step) (all : List Placed) → AreDecidedInAll steps all → AreNear all }
    ensures lengths { (steps : List Step) (all : List Placed) → AreDecidedInAll steps all
        → AllByRecursion IsInList all }
{}

/// The cells that are decided so far end apart, too, and none behind the sound.
pub fn the_cells_decided_so_far_lie_in_the_sound()
    ensures { (steps : List Step) (all : List Placed) → AreDecided steps all
        → AreApart all × (end_behind 0 all ≤ length steps) }
{}

/// Each sound has a best path, and its cells are decided, as it goes on and when it ends.
pub fn cells_are_decided_of_each_sound()
    ensures best { (step : Step) (steps : List Step)
        → (path : List Cell) × IsBestOfAll LENGTHS (step ∷ steps) path }
    ensures decided { (steps : List Step) → (all : List Placed) × AreDecided steps all }
    ensures in_all { (steps : List Step) → (all : List Placed) × AreDecidedInAll steps all }
{}
