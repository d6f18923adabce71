//! What follows from the definitions alone: from the samples of a steady tape to its intervals.
ghost use Rattle.std.specs.Prelude.{◌≡◌, ℕ, ◌+◌, ◌-◌, ◌*◌, ◌%◌, ◌<◌, ◌≤◌, true, ℤ, unsigned_abs, List, [], ◌∷◌};
ghost use Rattle.std.specs.Prelude.{◌++◌, length};
ghost use Rattle.std.specs.List.{AllByRecursion};
ghost use Rattle.cell_path.specs.declared.cell.Bit.{Bit};
ghost use Rattle.cell_path.specs.declared.cell.Bit.TheVariants.{Zero};
ghost use Rattle.cell_path.specs.declared.cell.Cell.{Cell};
ghost use Rattle.cell_path.specs.declared.cell.Sign.{Sign};
ghost use Rattle.cell_path.specs.declared.lengths.TheConstants.{LENGTHS};
ghost use Rattle.cell_path.specs.declared.placed.Placed.{Placed};
ghost use Rattle.cell_path.specs.Best.{IsBestOfAll};
ghost use Rattle.cell_path.specs.Decided.{placed, AreDecidedInAll};
ghost use Rattle.cell_path.specs.Lengths.{length_in};
ghost use Rattle.path_front.specs.Front.{AreIntervals};
ghost use Rattle.path_front.specs.Steps.{path_steps, sounds_of};
ghost use Rattle.path_front.specs.Tiles.{cut};
ghost use Rattle.path_truth.specs.Early.{HasAnEarlyZero};
ghost use Rattle.path_truth.specs.Intervals.{intervals_of_tape};
ghost use Rattle.path_truth.specs.Sides.{KeepsItsSides};
ghost use Rattle.path_truth.specs.Sound.{alone, IsSoundOf};
ghost use Rattle.path_truth.specs.Tape.{tape_of, IsSteady};
ghost use Rattle.path_truth.specs.Wave.{square_wave, with_noise};
ghost use Rattle.path_truth.specs.Worked.{noisy_samples, sampled_tape};
ghost use Rattle.step_grid.specs.declared.grid.Grid.TheVariants.{Repeat};

use cell_path::laws::cells_are_decided_of_each_sound;

/// The best path through the samples of a steady tape is the tape, if no size is greater than 14/3
/// of another. If a zero comes before the first decision, all its cells are decided, and no others.
pub fn the_best_path_of_a_steady_sound_is_its_tape()
    ensures best { (place : ℕ) (tape : List Cell) (repeats least low high : ℕ) (samples : List ℤ)
        → IsSoundOf place tape repeats least low high samples
        → IsBestOfAll LENGTHS (path_steps (sounds_of (Repeat repeats) least samples)) tape }
    ensures only { (place : ℕ) (tape path : List Cell) (repeats least low high : ℕ) (samples : List ℤ)
        → IsSoundOf place tape repeats least low high samples
        → IsBestOfAll LENGTHS (path_steps (sounds_of (Repeat repeats) least samples)) path → path ≡ tape }
    ensures decided { (place : ℕ) (tape : List Cell) (repeats least low high : ℕ) (samples : List ℤ)
        (all : List Placed) → IsSoundOf place tape repeats least low high samples
        → HasAnEarlyZero (length_in LENGTHS place) tape
        → AreDecidedInAll (path_steps (sounds_of (Repeat repeats) least samples)) all
        → all ≡ placed (length samples * repeats) tape }
{
    cells_are_decided_of_each_sound();
}

/// The intervals of such a sound are those of its tape, with a tick cut off the front, if no size
/// is greater than 12/5 of another: the gate refuses no cell.
pub fn the_intervals_of_a_steady_sound_are_its_tapes()
    ensures are { (place : ℕ) (tape : List Cell) (repeats ticks least low high : ℕ) (samples : List ℤ)
        → IsSoundOf place tape repeats least low high samples → 5 * high ≤ 12 * low → 1 ≤ ticks
        → HasAnEarlyZero (length_in LENGTHS place) tape
        → AreIntervals (Repeat repeats) ticks least samples
        (cut true (intervals_of_tape (length_in LENGTHS place * ticks) tape)) }
    ensures only { (place : ℕ) (tape : List Cell) (repeats ticks least low high : ℕ) (samples : List ℤ)
        (intervals : List ℕ) → IsSoundOf place tape repeats least low high samples → 5 * high ≤ 12 * low
        → 1 ≤ ticks → HasAnEarlyZero (length_in LENGTHS place) tape
        → AreIntervals (Repeat repeats) ticks least samples intervals
        → intervals ≡ cut true (intervals_of_tape (length_in LENGTHS place * ticks) tape) }
{
    cells_are_decided_of_each_sound();
}

/// The square wave of a steady tape is such a sound, with noise of up to 11/17 of its level. With
/// noise of up to 7/17 no size is greater than 12/5 of another.
pub fn noise_of_eleven_seventeenths_changes_nothing()
    ensures sound { (place : ℕ) (tape : List Cell) (repeats many least level most : ℕ) (noise : List ℤ)
        → IsSteady place tape → many * repeats ≡ length_in LENGTHS place → many % 2 ≡ 0
        → 17 * most ≤ 11 * level → 1 ≤ level → least + most ≤ level
        → AllByRecursion (λ n. unsigned_abs n ≤ most) noise
        → IsSoundOf place tape repeats least (level - most) (level + most)
        (with_noise noise (square_wave level many tape)) }
    ensures gate { (level most : ℕ) → 17 * most ≤ 7 * level → 5 * (level + most) ≤ 12 * (level - most) }
{}

/// The premises in numbers. Any bits with a zero among them make a tape, in cells of each of the 45 lengths, and its
/// zero is early if no more than 20 cells come before it. Samples on its sides are its sound if no size is greater than
/// 14/3 of another, and each sample is one step or more.
pub fn a_steady_sound_in_numbers()
    ensures tape { (place : ℕ) (sign : Sign) (later before : List Bit) → place < 45
        → IsSteady place (tape_of place sign (later ++ Zero ∷ before)) }
    ensures early { (place : ℕ) (sign : Sign) (later before : List Bit) → place < 45 → length before ≤ 20
        → HasAnEarlyZero (length_in LENGTHS place) (tape_of place sign (later ++ Zero ∷ before)) }
    ensures sound { (place many repeats least low high : ℕ) (tape : List Cell) (samples : List ℤ)
        → IsSteady place tape → many * repeats ≡ length_in LENGTHS place → KeepsItsSides many (alone samples) tape
        → 1 ≤ low → least ≤ low → 3 * high ≤ 14 * low
        → AllByRecursion (λ sample. low ≤ unsigned_abs sample) samples
        → AllByRecursion (λ sample. unsigned_abs sample ≤ high) samples
        → IsSoundOf place tape repeats least low high samples }
{}

/// So of the square wave of any bits with a zero among them, in an even number of samples for each cell and at any
/// level from the threshold and the noise on, the best path is their tape if the noise is at most 11/17 of the level.
/// If it is at most 7/17, and no more than 20 cells come before the zero, the intervals are those of the bits, but for a
/// tick that is cut off the front.
pub fn a_noisy_square_wave_is_its_tape()
    ensures path { (place many repeats least level most : ℕ) (sign : Sign) (later before : List Bit) (noise : List ℤ)
        → place < 45 → many * repeats ≡ length_in LENGTHS place → many % 2 ≡ 0 → 1 ≤ level → least + most ≤ level
        → 17 * most ≤ 11 * level → AllByRecursion (λ n. unsigned_abs n ≤ most) noise
        → let tape = tape_of place sign (later ++ Zero ∷ before) in
        let samples = with_noise noise (square_wave level many tape) in
        IsBestOfAll LENGTHS (path_steps (sounds_of (Repeat repeats) least samples)) tape }
    ensures intervals { (place many repeats ticks least level most : ℕ) (sign : Sign) (later before : List Bit)
        (noise : List ℤ) → place < 45 → many * repeats ≡ length_in LENGTHS place → many % 2 ≡ 0 → 1 ≤ ticks
        → 1 ≤ level → least + most ≤ level → 17 * most ≤ 7 * level → AllByRecursion (λ n. unsigned_abs n ≤ most) noise
        → length before ≤ 20
        → let tape = tape_of place sign (later ++ Zero ∷ before) in
        let samples = with_noise noise (square_wave level many tape) in
        AreIntervals (Repeat repeats) ticks least samples
        (cut true (intervals_of_tape (length_in LENGTHS place * ticks) tape)) }
{
    cells_are_decided_of_each_sound();
}

/// Worked samples of a zero, a one and a zero, with noise, are such a sound. At 100 ticks a step
/// their intervals are these.
pub fn noisy_samples_are_read()
    ensures sound { IsSoundOf 12 sampled_tape 2 59 59 141 noisy_samples }
    ensures read { AreIntervals (Repeat 2) 100 59 noisy_samples (1 ∷ 1_599 ∷ 800 ∷ 800 ∷ 1_600 ∷ []) }
{
    cells_are_decided_of_each_sound();
}
