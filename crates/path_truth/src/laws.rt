//! What follows from the definitions alone: from a steady tape to its best path.
ghost use Rattle.std.specs.Prelude.{◌≡◌, ℕ, ◌%◌, ◌<◌, ◌≤◌, ℤ, pos, ◌+ℤ◌, ◌≤ℤ◌, unsigned_abs};
ghost use Rattle.std.specs.Prelude.{List, [], ◌∷◌, ◌++◌, length, drop};
ghost use Rattle.cell_path.specs.declared.cell.Bit.TheVariants.{Zero};
ghost use Rattle.cell_path.specs.declared.cell.Cell.{Cell};
ghost use Rattle.cell_path.specs.declared.cell.Sign.{Sign};
ghost use Rattle.cell_path.specs.declared.cell.Step.{Step};
ghost use Rattle.cell_path.specs.declared.follow.TheConstants.{FIRST};
ghost use Rattle.cell_path.specs.declared.lengths.TheConstants.{LENGTHS};
ghost use Rattle.cell_path.specs.declared.placed.Placed.{Placed};
ghost use Rattle.cell_path.specs.Best.{IsBestOfAll};
ghost use Rattle.cell_path.specs.Decided.{placed, AreDecided, AreDecidedInAll};
ghost use Rattle.cell_path.specs.Lengths.{length_in};
ghost use Rattle.cell_path.specs.Path.{score, signed, IsPath};
ghost use Rattle.path_truth.specs.Early.{HasAnEarlyZero};
ghost use Rattle.path_truth.specs.Lost.{ambiguous, as_a_one, as_zeros, free, free_tape, odd, odd_tape, silent};
ghost use Rattle.path_truth.specs.Lost.{silent_tape};
ghost use Rattle.cell_path.specs.Unfinished.{sum_of_sizes};
ghost use Rattle.path_truth.specs.Sides.{IsOnSide, KeepsItsSides};
ghost use Rattle.path_truth.specs.SoFar.{ended_in_time};
ghost use Rattle.path_truth.specs.Tape.{GoOn, IsSteady};
ghost use Rattle.path_truth.specs.Worked.{noisy, noisy_tape};

use cell_path::laws::cells_are_decided_of_each_sound;

/// No score is greater than the sum of the sizes of the sound.
pub fn no_score_is_greater_than_the_sound()
    ensures { (lengths : List ℕ) (steps : List Step) (path : List Cell)
        → score lengths steps path ≤ℤ pos (sum_of_sizes steps) }
{}

/// The cells of a steady tape are a path through a sound that keeps its sides, and their score is
/// the sum of the sizes: none is greater.
pub fn the_tape_has_the_greatest_score()
    ensures path { (place : ℕ) (tape : List Cell) (steps : List Step) → IsSteady place tape
        → KeepsItsSides (length_in LENGTHS place) steps tape → IsPath LENGTHS steps tape }
    ensures score { (place : ℕ) (tape : List Cell) (steps : List Step) → IsSteady place tape
        → KeepsItsSides (length_in LENGTHS place) steps tape
        → score LENGTHS steps tape ≡ pos (sum_of_sizes steps) }
{}

/// If a sound keeps the sides of a steady tape, its best path is the tape, whatever its sizes and
/// levels are.
pub fn the_best_path_of_a_steady_tape_is_the_tape()
    ensures best { (place : ℕ) (tape : List Cell) (steps : List Step) → IsSteady place tape
        → KeepsItsSides (length_in LENGTHS place) steps tape → IsBestOfAll LENGTHS steps tape }
    ensures only { (place : ℕ) (tape path : List Cell) (steps : List Step) → IsSteady place tape
        → KeepsItsSides (length_in LENGTHS place) steps tape → IsBestOfAll LENGTHS steps path → path ≡ tape }
{
    cells_are_decided_of_each_sound();
}

/// If such a sound ends before the first decision falls due, the cells that are decided in all are
/// those of the tape.
pub fn a_short_tape_is_decided()
    ensures { (place : ℕ) (tape : List Cell) (steps : List Step) (all : List Placed) → IsSteady place tape
        → KeepsItsSides (length_in LENGTHS place) steps tape → length steps < FIRST → AreDecidedInAll steps all
        → all ≡ placed (length steps) tape }
{}

/// So are they of longer sound, if a zero comes before the first decision, wherever in a cell
/// decisions fall due.
pub fn a_tape_is_decided()
    ensures { (place : ℕ) (tape : List Cell) (steps : List Step) (all : List Placed) → IsSteady place tape
        → KeepsItsSides (length_in LENGTHS place) steps tape → HasAnEarlyZero (length_in LENGTHS place) tape
        → AreDecidedInAll steps all → all ≡ placed (length steps) tape }
{}

/// While the sound of such a tape goes on, those cells are decided that ended long enough before the latest decision,
/// and no others.
pub fn a_tape_is_decided_as_it_goes_on()
    ensures { (place : ℕ) (tape : List Cell) (steps : List Step) (later : ℕ) (all : List Placed)
        → IsSteady place tape → KeepsItsSides (length_in LENGTHS place) steps tape
        → HasAnEarlyZero (length_in LENGTHS place) tape → AreDecided (drop later steps) all
        → all ≡ ended_in_time (length (drop later steps)) (placed (length steps) tape) }
{}

/// A zero at the front of a tape comes before the first decision.
pub fn a_zero_at_the_front_is_early()
    ensures { (place : ℕ) (first : Cell) (more : List Cell) → place < length LENGTHS → first.bit ≡ Zero
        → HasAnEarlyZero (length_in LENGTHS place) (more ++ first ∷ []) }
{}

/// Noise that does not reach the size of a step leaves it on its side.
pub fn noise_below_the_size_keeps_the_side()
    ensures { (sign : Sign) (size level : ℕ) (noise : ℤ) → unsigned_abs noise < size → 1 ≤ level
        → IsOnSide sign (record { sound = signed sign (pos size) +ℤ noise; level = level }) }
{}

/// Each tape in cells of an even length has a sound that keeps its sides.
pub fn each_tape_of_an_even_length_has_a_sound()
    ensures { (n : ℕ) (tape : List Cell) → n % 2 ≡ 0 → (steps : List Step) × KeepsItsSides n steps tape }
{}

/// A zero, a one and a zero of four steps each, with noise of seven eighths of their size, are a
/// steady tape, and the sound keeps its sides. So its best path is the tape.
pub fn a_noisy_sound_is_read()
    ensures steady { IsSteady 0 noisy_tape }
    ensures keeps { KeepsItsSides (length_in LENGTHS 0) noisy noisy_tape }
    ensures read { IsBestOfAll LENGTHS noisy noisy_tape }
{
    cells_are_decided_of_each_sound();
}

/// A tape of ones alone is read as zeros of half the length, if that is in the list: a sound keeps
/// the sides of a one of eight steps, and its best path is two zeros of four.
pub fn ones_alone_are_read_as_zeros()
    ensures steady { GoOn 4 as_a_one }
    ensures keeps { KeepsItsSides (length_in LENGTHS 4) ambiguous as_a_one }
    ensures read { IsBestOfAll LENGTHS ambiguous as_zeros }
    ensures lost { IsBestOfAll LENGTHS ambiguous as_a_one → ⊥ }
{
    cells_are_decided_of_each_sound();
}

/// A steady tape may be lost if a one has an odd length, since its middle step counts for neither
/// half; if steps are silent, since they have no side; and if the level is zero, since nothing
/// costs anything.
pub fn each_premise_is_needed()
    ensures even { IsSteady 1 odd_tape × (IsBestOfAll LENGTHS odd odd_tape → ⊥) }
    ensures side { IsSteady 0 silent_tape × (IsBestOfAll LENGTHS silent silent_tape → ⊥) }
    ensures level { IsSteady 4 free_tape × (IsBestOfAll LENGTHS free free_tape → ⊥) }
{}
