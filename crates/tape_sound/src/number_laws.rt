//! The premises of the other laws in numbers: of a tape, and of a sound with a margin for it.
ghost use Rattle.std.specs.Prelude.{◌≡◌, ℕ, ◌+◌, ◌*◌, ◌<◌, ◌≤◌, max, List, [], ◌∷◌, ℤ, pos, ◌+ℤ◌, ◌-ℤ◌, ◌≤ℤ◌, length};
ghost use Rattle.std.specs.Int.{abs_diff};
ghost use Rattle.std.specs.List.{AllByRecursion};
ghost use Rattle.biphase.specs.declared.cell.Cell.{Cell};
ghost use Rattle.biphase.specs.declared.cell.Cell.TheVariants.{Zero, One};
ghost use Rattle.biphase.specs.declared.profile.Profile.{Profile};
ghost use Rattle.biphase.specs.declared.profile.Profile.TheVariants.{Normal, Worn, Rough};
ghost use Rattle.biphase.specs.Chain.{flat};
ghost use Rattle.biphase.specs.Tolerance.{length_of};
ghost use Rattle.pcm_front.specs.declared.threshold.Threshold.TheVariants.{Fixed};
ghost use Rattle.pcm_front.specs.Crossing.{apart};
ghost use Rattle.pcm_front.specs.Side.{sample_at};
ghost use Rattle.pcm_front.specs.Sound.{sound};
ghost use Rattle.tape_sound.specs.Heard.{transitions, HasMargin};
ghost use Rattle.tape_sound.specs.Late.{delays_of, drift_from, uneven, IsSteady, IsWithinAHundredth, RunsEvenly};
ghost use Rattle.tape_sound.specs.Made.{scaled};
ghost use Rattle.tape_sound.specs.Margin.{GoesOverAt, IsNoisy};

/// A tape is steady whose cells all last longer than 16 drifts and 32 delays under the normal tolerance, than 12 drifts
/// and 24 delays under the worn one, and under the rough one than 8 drifts and 10 delays, and than 12 drifts and 9
/// delays. The drift is any number by which no two of them differ more, nor the halves of one. Without drift the delays
/// alone are left. If cells and halves differ by a hundredth of the shortest cell at most, nothing drifts by more.
pub fn a_steady_tape_in_numbers()
    ensures normal { (least drift delay : ℕ) (tape : List Cell)
        → AllByRecursion (λ cell. (least ≤ length_of cell) × (length_of cell ≤ least + drift)) tape
        → AllByRecursion (λ cell. uneven cell ≤ drift) tape
        → 16 * drift + 32 * delay < least → IsSteady Normal delay tape }
    ensures worn { (least drift delay : ℕ) (tape : List Cell)
        → AllByRecursion (λ cell. (least ≤ length_of cell) × (length_of cell ≤ least + drift)) tape
        → AllByRecursion (λ cell. uneven cell ≤ drift) tape
        → 12 * drift + 24 * delay < least → IsSteady Worn delay tape }
    ensures rough { (least drift delay : ℕ) (tape : List Cell)
        → AllByRecursion (λ cell. (least ≤ length_of cell) × (length_of cell ≤ least + drift)) tape
        → AllByRecursion (λ cell. uneven cell ≤ drift) tape
        → 8 * drift + 10 * delay < least → 12 * drift + 9 * delay < least → IsSteady Rough delay tape }
    ensures even { (half delay : ℕ) (tape : List Cell) → RunsEvenly half tape
        → (32 * delay < 2 * half → IsSteady Normal delay tape)
        × (24 * delay < 2 * half → IsSteady Worn delay tape)
        × (10 * delay < 2 * half → IsSteady Rough delay tape) }
    ensures hundredth { (profile : Profile) (least delay : ℕ) (tape : List Cell)
        → AllByRecursion (λ cell. (least ≤ length_of cell) × (100 * length_of cell ≤ 101 * least)) tape
        → AllByRecursion (λ cell. 100 * uneven cell ≤ least) tape
        → delays_of profile * delay < least → IsWithinAHundredth (delays_of profile) delay tape }
    ensures drift { (before a b : ℕ) → (drift_from before (Zero a) ≡ abs_diff a before)
        × (drift_from before (One a b) ≡ max (abs_diff (a + b) before) (abs_diff a b)) }
{}

/// A sound has a margin for such a tape at a fixed threshold, if the noise moves no sample further than the threshold
/// lies from each of two bounds, and the clean sound goes over all the way between these within the delay. The sound
/// that is made of an even tape, with noise of its size less the threshold at most, has one if a cell has more than 32
/// samples under the normal tolerance, 24 under the worn and 10 under the rough one.
pub fn a_margin_in_numbers()
    ensures bounds { (profile : Profile) (fineness delay start noise threshold : ℕ) (low high : ℤ) (tape : List Cell)
        (clean sound : List ℤ) → 1 ≤ threshold → (low +ℤ pos noise) ≤ℤ pos threshold
        → (pos threshold +ℤ pos noise) ≤ℤ high → length sound ≡ length clean
        → ((place : ℕ) → place < length sound → apart (sample_at sound place) (sample_at clean place) ≤ noise)
        → GoesOverAt fineness (λ place. low) (λ place. high) delay (transitions start tape) clean
        → IsSteady profile delay tape → HasMargin profile fineness (Fixed threshold) tape sound }
    ensures made { (fineness size noise threshold half : ℕ) (tape : List Cell) (noisy : List ℤ)
        → 1 ≤ fineness → 1 ≤ threshold → threshold + noise ≤ size
        → IsNoisy (λ place. noise) (sound size (flat tape)) noisy → RunsEvenly half tape
        → (32 < 2 * half → HasMargin Normal fineness (Fixed threshold) (scaled fineness tape) noisy)
        × (24 < 2 * half → HasMargin Worn fineness (Fixed threshold) (scaled fineness tape) noisy)
        × (10 < 2 * half → HasMargin Rough fineness (Fixed threshold) (scaled fineness tape) noisy) }
{}
