//! What follows from the definitions of crossings and distances alone.
ghost use Rattle.std.specs.Prelude.{◌≡◌, ℕ, ◌+◌, ◌-◌, ◌*◌, ◌%◌, ◌<◌, ◌≤◌, ◌^◌, FitsSigned, false, true, ℤ, pos, ◌≤ℤ◌};
ghost use Rattle.std.specs.Prelude.{int_le, unsigned_abs, List, [], ◌∷◌};
ghost use Rattle.std.specs.Prelude.{◌++◌, length, map, take, drop};
ghost use Rattle.std.specs.Int.{w16};
ghost use Rattle.std.specs.List.{All, AllByRecursion, sum};
ghost use Rattle.pcm_front.specs.declared.pace.Pace.{Pace};
ghost use Rattle.pcm_front.specs.declared.side.Side.{Side};
ghost use Rattle.pcm_front.specs.declared.threshold.Threshold.{Threshold};
ghost use Rattle.pcm_front.specs.declared.threshold.Threshold.TheVariants.{Fixed, Follow, Deep};
ghost use Rattle.pcm_front.specs.declared.threshold.TheConstants.{MAX_THRESHOLD};
ghost use Rattle.pcm_front.specs.declared.window.TheConstants.{MAX_SMOOTH};
ghost use Rattle.pcm_front.specs.Level.{least_of, level_of};
ghost use Rattle.pcm_front.specs.Covered.{TellTheCrossings};
ghost use Rattle.pcm_front.specs.Crossing.{apart, crossings, is_crossing, moments, tick_at, tick_in_step};
ghost use Rattle.pcm_front.specs.Distance.{distances, distances_by, distances_from_start, gaps, intervals};
ghost use Rattle.pcm_front.specs.Distance.{intervals_by, pieces_in, pieces_of, IsInterval};
ghost use Rattle.pcm_front.specs.Pace.{intervals_at, passed_by, IsPace};
ghost use Rattle.pcm_front.specs.Runs.{Alternate, IsOfSize, LiesOn, joined};
ghost use Rattle.pcm_front.specs.Samples.{bytes_of, samples_of};
ghost use Rattle.pcm_front.specs.Settings.{from_crossing, Settings};
ghost use Rattle.pcm_front.specs.Sound.{sound};
ghost use Rattle.pcm_front.specs.Sums.{sums};

/// A sum has 16 samples at most, and a threshold is at most the sum of 16 samples that are 32,767.
pub fn sums_and_thresholds_have_these_limits()
    ensures sum { MAX_SMOOTH ≡ 16 }
    ensures threshold { MAX_THRESHOLD ≡ 16 * 32767 }
{}

/// If a sample below the threshold is followed by one that is not, the tick of the crossing is the
/// least that lies at the threshold or above, on a straight line from the one to the other.
pub fn a_tick_is_rounded_up()
    ensures { (fineness threshold : ℕ) (a b : ℤ)
        → int_le (pos threshold) a ≡ false → pos threshold ≤ℤ b
        → (fineness * apart (pos threshold) a ≤ tick_in_step fineness threshold a b * apart b a)
        × (tick_in_step fineness threshold a b * apart b a < fineness * apart (pos threshold) a + apart b a) }
{}

/// A crossing is never the first sample, and lies in the ticks of the step to its sample: from 1 to
/// the fineness.
pub fn a_crossing_lies_in_its_step()
    ensures place { (threshold : Threshold) (samples : List ℤ) (place : ℕ)
        → is_crossing threshold samples place ≡ true → 1 ≤ place }
    ensures tick { (fineness : ℕ) (threshold : Threshold) (samples : List ℤ) (place : ℕ)
        → 1 ≤ fineness → is_crossing threshold samples place ≡ true
        → (1 ≤ tick_at fineness threshold samples place) × (tick_at fineness threshold samples place ≤ fineness) }
{}

/// Moments rise: no distance is 0.
pub fn moments_rise()
    ensures { (fineness : ℕ) (threshold : Threshold) (samples : List ℤ) → 1 ≤ fineness
        → All (λ distance. 1 ≤ distance) (distances fineness threshold samples) }
{}

/// No distance is 0, even if the first one runs from tick 0: each is at least 1.
pub fn distances_are_some()
    ensures { (settings : Settings) (samples : List ℤ) → 1 ≤ settings.fineness
        → All (λ distance. 1 ≤ distance) (distances_by settings samples) }
{}

/// From tick 0, the first distance leads to the first crossing, and the others are those from crossing
/// to crossing.
pub fn the_first_distance_leads_to_the_first_crossing()
    ensures { (fineness : ℕ) (threshold : Threshold) (samples : List ℤ) (first : ℕ) (more : List ℕ)
        → moments fineness threshold samples ≡ first ∷ more
        → distances_from_start fineness threshold samples ≡ first ∷ distances fineness threshold samples }
{}

/// A sum of one sample is the sample.
pub fn sums_of_one_are_the_samples()
    ensures sums { (samples : List ℤ) → sums 1 samples ≡ samples }
    ensures distances { (fineness : ℕ) (threshold : Threshold) (samples : List ℤ)
        → distances_by (from_crossing fineness threshold 1) samples ≡ distances fineness threshold samples }
{}

/// The distances of some samples come first, whatever samples follow.
pub fn distances_of_a_front_come_first()
    ensures { (settings : Settings) (front more : List ℤ)
        → (rest : List ℕ) × (distances_by settings (front ++ more) ≡ distances_by settings front ++ rest) }
{}

/// With one tick a sample, moments are the places of the crossings.
pub fn whole_samples_are_places()
    ensures moments { (threshold : Threshold) (samples : List ℤ)
        → moments 1 threshold samples ≡ crossings threshold samples }
    ensures distances { (threshold : Threshold) (samples : List ℤ)
        → distances 1 threshold samples ≡ gaps (crossings threshold samples) }
{}

/// From any crossing to any later one, the ticks differ from those of whole samples by less than a
/// sample.
pub fn a_finer_distance_is_near()
    ensures { (fineness : ℕ) (threshold : Threshold) (samples : List ℤ) (first count : ℕ) → 1 ≤ fineness
        → let fine = sum (take count (drop first (distances fineness threshold samples))) in
        let whole = sum (take count (drop first (distances 1 threshold samples))) in
        (fine ≤ fineness * whole + (fineness - 1)) × (fineness * whole ≤ fine + (fineness - 1)) }
{}

/// Runs of samples on alternating sides are sliced, in whole samples, into their lengths, but for the
/// first run and the last, which have no crossing before or after them.
pub fn runs_are_sliced_into_their_lengths()
    ensures distances { (threshold : ℕ) (side : Side) (first : List ℤ) (runs : List (List ℤ)) (last : List ℤ)
        → Alternate (LiesOn threshold) side (first ∷ (runs ++ last ∷ []))
        → distances 1 (Fixed threshold) (joined (first ∷ (runs ++ last ∷ []))) ≡ map length runs }
    ensures intervals { (threshold : ℕ) (side : Side) (first : List ℤ) (runs : List (List ℤ)) (last : List ℤ)
        → Alternate (LiesOn threshold) side (first ∷ (runs ++ last ∷ []))
        → AllByRecursion IsInterval (map length runs)
        → intervals 1 (Fixed threshold) (joined (first ∷ (runs ++ last ∷ []))) ≡ map length runs }
{}

/// Runs of samples of one size, at least the threshold, are sliced at every fineness into their
/// lengths in ticks.
pub fn runs_of_one_size_are_sliced_into_their_lengths()
    ensures { (fineness threshold size : ℕ) (side : Side) (first : List ℤ) (runs : List (List ℤ)) (last : List ℤ)
        → 1 ≤ threshold → threshold ≤ size
        → Alternate (IsOfSize size) side (first ∷ (runs ++ last ∷ []))
        → distances fineness (Fixed threshold) (joined (first ∷ (runs ++ last ∷ [])))
        ≡ map (λ run. fineness * length run) runs }
{}

/// Sound that is made of intervals is sliced, by a threshold of at most its size, into them again.
pub fn a_sound_is_sliced_into_its_intervals()
    ensures distances { (fineness threshold size : ℕ) (intervals : List ℕ)
        → 1 ≤ threshold → threshold ≤ size → AllByRecursion IsInterval intervals
        → distances fineness (Fixed threshold) (sound size intervals)
        ≡ map (λ interval. fineness * interval) intervals }
    ensures intervals { (threshold size : ℕ) (lengths : List ℕ)
        → 1 ≤ threshold → threshold ≤ size → AllByRecursion IsInterval lengths
        → intervals 1 (Fixed threshold) (sound size lengths) ≡ lengths }
{}

/// The same at a threshold that follows the level, of at least half the size: the level of the sound does
/// not raise it. And if the first distance runs from the first sample, these come behind it.
pub fn a_sound_is_sliced_at_a_threshold_that_follows()
    ensures follow { (fineness threshold size : ℕ) (intervals : List ℕ)
        → 1 ≤ threshold → threshold ≤ size → size ≤ 2 * threshold → AllByRecursion IsInterval intervals
        → distances fineness (Follow threshold) (sound size intervals)
        ≡ map (λ interval. fineness * interval) intervals }
    ensures deep { (fineness threshold size : ℕ) (intervals : List ℕ)
        → 1 ≤ threshold → threshold ≤ size → size ≤ 2 * threshold → AllByRecursion IsInterval intervals
        → distances fineness (Deep threshold) (sound size intervals) ≡ map (λ interval. fineness * interval) intervals }
    ensures behind { (fineness : ℕ) (threshold : Threshold) (samples : List ℤ)
        → drop 1 (distances_from_start fineness threshold samples) ≡ distances fineness threshold samples }
{}

/// Samples of 16 bits are read from bytes as they were written, among them those of each sound.
pub fn samples_are_read_as_they_were_written()
    ensures read { (samples : List ℤ) → AllByRecursion (FitsSigned w16) samples
        → samples_of (bytes_of samples) ≡ samples }
    ensures sound { (size : ℕ) (intervals : List ℕ) → size < 2 ^ 15
        → samples_of (bytes_of (sound size intervals)) ≡ sound size intervals }
{}

/// The level of samples whose sizes are within a number: its peak is within it too, and its sum within
/// 1,024 times as much.
pub fn levels_are_bounded()
    ensures peak { (most : ℕ) (samples : List ℤ) → AllByRecursion (λ sample. unsigned_abs sample ≤ most) samples
        → (level_of samples).peak ≤ most }
    ensures sum { (most : ℕ) (samples : List ℤ) → AllByRecursion (λ sample. unsigned_abs sample ≤ most) samples
        → (level_of samples).sum ≤ 1_024 * most }
{}

/// The intervals of a distance add up to it, and each is from 1 to the greatest.
pub fn intervals_add_up_to_their_distance()
    ensures sum { (distance : ℕ) → 1 ≤ distance → sum (pieces_of distance) ≡ distance }
    ensures range { (distance : ℕ) → 1 ≤ distance → AllByRecursion IsInterval (pieces_of distance) }
{}

/// Each distance is its pieces, joined again, and each piece is from 1 to the length.
pub fn pieces_add_up_to_their_distance()
    ensures joined { (length : ℕ) (settings : Settings) (samples : List ℤ) → 1 ≤ length → 1 ≤ settings.fineness
        → map (λ distance. sum (pieces_in length distance)) (distances_by settings samples)
        ≡ distances_by settings samples }
    ensures range { (length distance : ℕ) → 1 ≤ length → 1 ≤ distance
        → AllByRecursion (λ piece. (1 ≤ piece) × (piece ≤ length)) (pieces_in length distance) }
{}

/// The intervals of samples give their crossings: each leads from one side to the other, neighbours lie on opposite
/// sides
/// with none between them, the ticks from the first, or from tick 0, to the last are covered, and the sign of the
/// samples
/// changes nothing.
pub fn intervals_tell_the_crossings()
    ensures { (pace : Pace) (s : Settings) (samples : List ℤ) → IsPace pace → 1 ≤ s.fineness → 1 ≤ least_of s.threshold
        → TellTheCrossings pace s samples }
{}

/// Bytes of whole samples are the bytes of these samples.
pub fn bytes_are_those_of_their_samples()
    ensures { (bytes : List ℕ) → AllByRecursion (λ byte. byte < 256) bytes → length bytes % 2 ≡ 0
        → bytes_of (samples_of bytes) ≡ bytes }
{}

/// Without pieces the intervals are those of whole distances. If each distance is within a piece, and
/// no more has passed behind the last crossing, pieces change nothing.
pub fn short_distances_are_whole()
    ensures ended { (settings : Settings) (samples : List ℤ)
        → intervals_at Pace.Ended settings samples ≡ intervals_by settings samples }
    ensures short { (length : ℕ) (settings : Settings) (samples : List ℤ) → IsInterval length → 1 ≤ settings.fineness
        → AllByRecursion (λ distance. distance ≤ length) (distances_by settings samples)
        → passed_by settings samples < length
        → intervals_at (Pace.Passing length) settings samples ≡ intervals_by settings samples }
{}

/// At each pace, the intervals of some samples come first, whatever samples follow.
pub fn intervals_of_a_front_come_first()
    ensures { (pace : Pace) (settings : Settings) (front more : List ℤ) → IsPace pace
        → (rest : List ℕ) × (intervals_at pace settings (front ++ more) ≡ intervals_at pace settings front ++ rest) }
{}
