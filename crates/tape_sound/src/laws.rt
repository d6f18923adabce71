//! What follows from the definitions alone: from a tape that is found late to the words of a sound.
ghost use Rattle.std.specs.Prelude.{◌≡◌, ℕ, ◌+◌, ◌*◌, ◌/◌, ◌<◌, ◌≤◌, max, List, [], ◌∷◌, map, count_by, true, false};
ghost use Rattle.std.specs.Prelude.{◌-◌, take, drop, ℤ, pos, neg_ℤ, ◌+ℤ◌, ◌-ℤ◌, unsigned_abs, length};
ghost use Rattle.std.specs.List.{AllByRecursion};
ghost use Rattle.biphase.specs.declared.cell.Cell.{Cell};
ghost use Rattle.biphase.specs.declared.cell.Cell.TheVariants.{Zero, One};
ghost use Rattle.limits.specs.declared.recording.TheConstants.{MAX_INTERVALS};
ghost use Rattle.biphase.specs.declared.profile.Profile.{Profile};
ghost use Rattle.biphase.specs.declared.profile.Profile.TheVariants.{Normal, Worn, Rough};
ghost use Rattle.biphase.specs.Chain.{bits, flat, IsChain};
ghost use Rattle.biphase.specs.Tolerance.{LooksAtLast};
ghost use Rattle.cell_tracker.specs.ChainPiece.{cells_from};
ghost use Rattle.cell_tracker.specs.Lock.{IsLock};
ghost use Rattle.direction_reader.specs.declared.event.Event.{Event};
ghost use Rattle.direction_reader.specs.Events.{is_lost};
ghost use Rattle.direction_reader.specs.ListEvents.{duration, events_of_cells, AreEvents};
ghost use Rattle.direction_reader.specs.Played.{Played, AreSpelled, bits_of_words, events_of_words};
ghost use Rattle.pcm_front.specs.declared.side.Side.TheVariants.{Low};
ghost use Rattle.pcm_front.specs.declared.threshold.Threshold.{Threshold};
ghost use Rattle.pcm_front.specs.declared.threshold.Threshold.TheVariants.{Fixed, Follow};
ghost use Rattle.pcm_front.specs.Crossing.{moments};
ghost use Rattle.pcm_front.specs.Distance.{distances, distances_from_start, gaps, IsInterval};
ghost use Rattle.pcm_front.specs.Level.{least_of, threshold_at};
ghost use Rattle.pcm_front.specs.Sound.{sound};
ghost use Rattle.tc_address.specs.declared.system.System.{System};
ghost use Rattle.tape_sound.specs.Heard.{AreHeard, BeginsLate, FitsAFile, FitsBehindASilence, HasMargin};
ghost use Rattle.tape_sound.specs.Heard.{transitions, AreFoundCells, HasMarginToItsEnd, LastTwoDelays};
ghost use Rattle.tape_sound.specs.Late.{delays_of, drift_from, AreFoundAs, IsSteady, IsWithinAHundredth};
ghost use Rattle.tape_sound.specs.Made.{scaled};
ghost use Rattle.tape_sound.specs.Margin.{noise_in_step, turns, ComeBehind, ComeWithin, GoesOverAt, HasRoom};
ghost use Rattle.tape_sound.specs.Margin.{IsNoisy, StaysBetween};
ghost use Rattle.tape_sound.specs.OnTime.{told, untimed, AreOnTime};
ghost use Rattle.tape_sound.specs.Part.{FindThePart, FindThePartBehindOnes, PartHasMargin};
ghost use Rattle.tape_sound.specs.Ramps.{high_along, low_along, noise_along, AreRamps, MovesOneWay, Ramp};

use cell_tracker::laws::a_recording_within_the_tolerance_is_one_stretch;
use direction_reader::laws::{
    a_list_has_one_list_of_events, events_find_the_tape_again,
    events_find_the_tape_behind_even_ones, events_tell_the_tape, played_words_are_read,
};
use pcm_front::laws::{levels_are_bounded, the_first_distance_leads_to_the_first_crossing};

/// A tape that runs steadily keeps the tolerance as it is found, and has its bits.
pub fn a_steady_tape_is_found_within_the_tolerance()
    ensures chain { (profile : Profile) (delay first : ℕ) (tape cells : List Cell) → first ≤ delay
        → IsSteady profile delay tape → AreFoundAs delay first tape cells → IsChain profile cells }
    ensures bits { (delay first : ℕ) (tape cells : List Cell) → AreFoundAs delay first tape cells
        → bits cells ≡ bits tape }
{}

/// If nothing on the tape drifts by more than a hundredth, it is steady if each cell is longer than
/// 40 delays under the normal tolerance, 28 under the worn and 11 under the rough one.
pub fn a_tape_within_a_hundredth_is_steady()
    ensures steady { (profile : Profile) (delay : ℕ) (tape : List Cell)
        → IsWithinAHundredth (delays_of profile) delay tape → IsSteady profile delay tape }
    ensures normal { delays_of Normal ≡ 40 }
    ensures worn { delays_of Worn ≡ 28 }
    ensures rough { delays_of Rough ≡ 11 }
{}

/// Fewer are too few. A one that is longer than 38 delays of 50 ticks, and whose halves differ by a
/// hundredth, breaks the normal tolerance if its middle is found late; so does one of 27 such delays
/// under the worn tolerance, and one of 10 delays of 10 ticks under the rough one.
pub fn fewer_delays_are_refused()
    ensures normal { IsWithinAHundredth 38 50 (One 960 941 ∷ [])
        × AreFoundAs 50 0 (One 960 941 ∷ []) (One 1010 891 ∷ []) × ¬ IsChain Normal (One 1010 891 ∷ []) }
    ensures worn { IsWithinAHundredth 27 50 (One 682 669 ∷ [])
        × AreFoundAs 50 0 (One 682 669 ∷ []) (One 732 619 ∷ []) × ¬ IsChain Worn (One 732 619 ∷ []) }
    ensures rough { IsWithinAHundredth 10 10 (One 51 50 ∷ [])
        × AreFoundAs 10 0 (One 51 50 ∷ []) (One 61 40 ∷ []) × ¬ IsChain Rough (One 61 40 ∷ []) }
{}

/// Nor would fewer drifts or delays do. A one whose halves differ by 3 ticks breaks the normal tolerance
/// though it outlasts 15 drifts, and the worn one though it outlasts 11; one of equal halves, whose middle is
/// found 10 ticks late, breaks the three of them though it outlasts 31, 23 and 9 delays.
pub fn the_numbers_of_steadiness_are_the_least()
    ensures normal_drifts { (15 * drift_from 47 (One 25 22) < 47) × ¬ IsChain Normal (One 25 22 ∷ []) }
    ensures worn_drifts { (11 * drift_from 35 (One 19 16) < 35) × ¬ IsChain Worn (One 19 16 ∷ []) }
    ensures normal_delays { (16 * drift_from 316 (One 158 158) + 31 * 10 < 316)
        × AreFoundAs 10 0 (One 158 158 ∷ []) (One 168 148 ∷ []) × ¬ IsChain Normal (One 168 148 ∷ []) }
    ensures worn_delays { (12 * drift_from 236 (One 118 118) + 23 * 10 < 236)
        × AreFoundAs 10 0 (One 118 118 ∷ []) (One 128 108 ∷ []) × ¬ IsChain Worn (One 128 108 ∷ []) }
    ensures rough_delays { (8 * drift_from 96 (One 48 48) + 9 * 10 < 96)
        × AreFoundAs 10 0 (One 48 48 ∷ []) (One 58 38 ∷ []) × ¬ IsChain Rough (One 58 38 ∷ []) }
{}

/// Noise moves no crossing past the delay. If a clean sound goes over once at each of some moments,
/// all the way from the low bound to the high one within the delay, so does the sound with noise: each
/// of its crossings comes within the delay, and there are no others.
pub fn noise_keeps_crossings_within_the_delay()
    ensures { (fineness : ℕ) (noise : ℕ → ℕ) (low high : ℕ → ℤ) (delay : ℕ) (threshold : Threshold) (from : List ℕ)
        (clean sound : List ℤ) → 1 ≤ fineness → IsNoisy noise clean sound
        → StaysBetween low high noise threshold sound → GoesOverAt fineness low high delay from clean
        → ComeWithin delay from (moments fineness threshold sound) }
{}

/// So the distances of such a sound are the intervals of the tape's cells as they are found, if each
/// interval of the tape lasts two delays or more. This needs nothing of any tolerance.
pub fn distances_are_the_cells_as_they_are_found()
    ensures { (fineness : ℕ) (noise : ℕ → ℕ) (low high : ℕ → ℤ) (delay start : ℕ) (threshold : Threshold)
        (tape : List Cell) (clean sound : List ℤ) → 1 ≤ fineness → IsNoisy noise clean sound
        → StaysBetween low high noise threshold sound
        → GoesOverAt fineness low high delay (transitions start tape) clean → LastTwoDelays delay tape
        → AreFoundCells delay tape (distances fineness threshold sound) }
{}

/// Each part of this is needed. If noise of 6 meets a low bound that leaves room for 3, the sound crosses
/// too soon; if the clean sound comes back over the low bound, though not over the high one, it
/// crosses too often; and if the clean sound is slow to reach the high bound, too late. It crosses
/// too soon also if the noise at a sample has room, and the louder one at the sample before has not.
pub fn each_part_of_a_margin_is_needed()
    ensures dips { let clean = neg_ℤ (pos 20) ∷ neg_ℤ (pos 1) ∷ pos 20 ∷ [] in
        let sound = neg_ℤ (pos 20) ∷ pos 5 ∷ pos 20 ∷ [] in
        IsNoisy (λ place. 6) clean sound × GoesOverAt 1 (λ place. pos 1) (λ place. pos 10) 1 (2 ∷ []) clean
        × ¬ ComeWithin 1 (2 ∷ []) (moments 1 (Fixed 4) sound) }
    ensures comes_back { let clean = neg_ℤ (pos 20) ∷ pos 20 ∷ neg_ℤ (pos 2) ∷ pos 20 ∷ [] in
        let sound = neg_ℤ (pos 20) ∷ pos 20 ∷ neg_ℤ (pos 5) ∷ pos 20 ∷ [] in
        IsNoisy (λ place. 3) clean sound × StaysBetween (λ place. pos 1) (λ place. pos 7) (λ place. 3) (Fixed 4) sound
        × ComeWithin 1 (1 ∷ []) (turns 1 (λ place. pos 7) clean Low 1 3)
        × ¬ ComeWithin 1 (1 ∷ []) (moments 1 (Fixed 4) sound) }
    ensures slow { let clean = neg_ℤ (pos 20) ∷ pos 5 ∷ pos 20 ∷ [] in
        let sound = neg_ℤ (pos 20) ∷ pos 3 ∷ pos 20 ∷ [] in
        IsNoisy (λ place. 3) clean sound × StaysBetween (λ place. pos 1) (λ place. pos 7) (λ place. 3) (Fixed 4) sound
        × ComeBehind (turns 1 (λ place. pos 1) clean Low 1 2) (1 ∷ [])
        × ¬ ComeWithin 0 (1 ∷ []) (moments 1 (Fixed 4) sound) }
    ensures louder_before { let clean = neg_ℤ (pos 20) ∷ pos 20 ∷ [] in
        let sound = neg_ℤ (pos 10) ∷ pos 20 ∷ [] in
        let noise : ℕ → ℕ = λ place. 10 - 10 * place in
        let low : ℕ → ℤ = λ place. pos 4 -ℤ pos (10 - 10 * place) in
        let high : ℕ → ℤ = λ place. pos 4 +ℤ pos (10 - 10 * place) in
        IsNoisy noise clean sound
        × ((place : ℕ) → place < 2 → HasRoom (low place) (high place) (noise place) 4)
        × GoesOverAt 40 low high 0 (24 ∷ []) clean
        × ¬ ComeWithin 0 (24 ∷ []) (moments 40 (Fixed 4) sound) }
{}

/// Whatever the sound, its threshold stays between its least and half of the greatest sample.
pub fn a_threshold_stays_within_the_level()
    ensures { (threshold : Threshold) (most : ℕ) (noise : ℕ → ℕ) (sound : List ℤ) → 1 ≤ least_of threshold
        → AllByRecursion (λ sample. unsigned_abs sample ≤ most) sound
        → StaysBetween (λ place. pos (least_of threshold) -ℤ pos (noise_in_step noise place))
        (λ place. pos (max (least_of threshold) (most / 2)) +ℤ pos (noise_in_step noise place)) noise threshold sound }
{
    levels_are_bounded();
}

/// Part by part. If over each part of a sound the threshold rises, or falls, from a value to another,
/// but for a ripple, and the noise is at most a given size, the threshold stays between the bounds that these
/// numbers give. A plateau is a part that begins and ends with one threshold. If it never falls from a
/// sample to the next, it rises without a ripple; so it is with falling.
pub fn a_threshold_of_ramps_stays_between_them()
    ensures between { (threshold : Threshold) (ramps : List Ramp) (sound : List ℤ) → 1 ≤ least_of threshold
        → AreRamps threshold sound 0 ramps
        → StaysBetween (low_along ramps) (high_along ramps) (noise_along ramps) threshold sound }
    ensures rising { (threshold : Threshold) (sound : List ℤ) (first count : ℕ)
        → ((place : ℕ) → first ≤ place → place + 1 < first + count
        → threshold_at threshold sound place ≤ threshold_at threshold sound (place + 1))
        → MovesOneWay true 0 threshold sound first count }
    ensures falling { (threshold : Threshold) (sound : List ℤ) (first count : ℕ)
        → ((place : ℕ) → first ≤ place → place + 1 < first + count
        → threshold_at threshold sound (place + 1) ≤ threshold_at threshold sound place)
        → MovesOneWay false 0 threshold sound first count }
    ensures worked { let sound = pos 8 ∷ pos 8 ∷ neg_ℤ (pos 8) ∷ neg_ℤ (pos 8) ∷ pos 8 ∷ pos 8
        ∷ pos 0 ∷ pos 0 ∷ pos 0 ∷ pos 0 ∷ [] in
        let ramps : List Ramp = record { long = 6; begins = 1; ends = 4; ripple = 0; noise = 2 }
        ∷ record { long = 4; begins = 3; ends = 2; ripple = 0; noise = 0 } ∷ [] in
        AreRamps (Follow 1) sound 0 ramps
        × (low_along ramps 5 ≡ neg_ℤ (pos 1)) × (high_along ramps 5 ≡ pos 6)
        × (low_along ramps 6 ≡ pos 0) × (high_along ramps 6 ≡ pos 5)
        × (low_along ramps 7 ≡ pos 2) × (high_along ramps 7 ≡ pos 3) }
{}

/// What is read of a tape that is heard: its words, good or refused, from the first unequal pair on, and
/// no break.
pub fn what_is_heard_of_a_tape_is_read()
    ensures words { (system : System) (profile : Profile) (delay : ℕ) (tape : List Cell) (cut lock : ℕ)
        (moments : List ℕ) (events : List Event) → AreHeard profile delay tape cut moments
        → AreEvents system profile (gaps moments) events → IsLock profile (gaps moments) 0 lock
        → map untimed events ≡ map untimed (events_of_cells system 0 (cells_from tape cut (gaps moments) lock)) }
    ensures no_break { (system : System) (profile : Profile) (delay : ℕ) (tape : List Cell) (cut : ℕ)
        (moments : List ℕ) (events : List Event) → AreHeard profile delay tape cut moments
        → AreEvents system profile (gaps moments) events → count_by is_lost events ≡ 0 }
{
    events_tell_the_tape();
}

/// From sound to words. Of a sound with a margin, whose tape begins with the bits 0 and 1 and has the
/// bits of words behind them, each word is read, and nothing else: its tick and its length are those of
/// the tape from its first transition, but for the delay. And its distances are intervals of a file if
/// those of the tape are.
pub fn noise_below_the_margin_costs_no_word()
    ensures words { (system : System) (profile : Profile) (fineness : ℕ) (threshold : Threshold) (tape : List Cell)
        (words : List Played) (sound : List ℤ) (events : List Event) → 1 ≤ fineness
        → HasMargin profile fineness threshold tape sound
        → bits tape ≡ false ∷ true ∷ bits_of_words words → AreSpelled system words
        → AreEvents system profile (distances fineness threshold sound) events
        → map untimed events ≡ told words }
    ensures on_time { (system : System) (profile : Profile) (fineness : ℕ) (threshold : Threshold) (tape : List Cell)
        (words : List Played) (sound : List ℤ) (events : List Event) → 1 ≤ fineness
        → (margin : HasMargin profile fineness threshold tape sound)
        → bits tape ≡ false ∷ true ∷ bits_of_words words → AreSpelled system words
        → AreEvents system profile (distances fineness threshold sound) events
        → AreOnTime margin.delay events (events_of_words (duration (take 2 tape)) (drop 2 tape) words) }
    ensures fit { (profile : Profile) (fineness : ℕ) (threshold : Threshold) (tape : List Cell) (sound : List ℤ)
        → 1 ≤ fineness → (margin : HasMargin profile fineness threshold tape sound)
        → FitsAFile margin.delay tape → AllByRecursion IsInterval (distances fineness threshold sound)
        × (length (distances fineness threshold sound) ≤ MAX_INTERVALS) }
{
    a_list_has_one_list_of_events();
    played_words_are_read();
}

/// The same if the first distance runs from the first sample, and the tape begins behind a silence of
/// more than three cells: the interval of the silence changes nothing, and each tick is that from the
/// first sample.
pub fn a_silence_before_the_tape_costs_no_word()
    ensures words { (system : System) (profile : Profile) (fineness : ℕ) (threshold : Threshold) (tape : List Cell)
        (words : List Played) (sound : List ℤ) (events : List Event) → 1 ≤ fineness
        → (margin : HasMargin profile fineness threshold tape sound) → BeginsLate margin.delay margin.start tape
        → bits tape ≡ false ∷ true ∷ bits_of_words words → AreSpelled system words
        → AreEvents system profile (distances_from_start fineness threshold sound) events
        → map untimed events ≡ told words }
    ensures on_time { (system : System) (profile : Profile) (fineness : ℕ) (threshold : Threshold) (tape : List Cell)
        (words : List Played) (sound : List ℤ) (events : List Event) → 1 ≤ fineness
        → (margin : HasMargin profile fineness threshold tape sound) → BeginsLate margin.delay margin.start tape
        → bits tape ≡ false ∷ true ∷ bits_of_words words → AreSpelled system words
        → AreEvents system profile (distances_from_start fineness threshold sound) events
        → AreOnTime margin.delay events
        (events_of_words (margin.start + duration (take 2 tape)) (drop 2 tape) words) }
    ensures fit { (profile : Profile) (fineness : ℕ) (threshold : Threshold) (tape : List Cell) (sound : List ℤ)
        → 1 ≤ fineness → (margin : HasMargin profile fineness threshold tape sound)
        → BeginsLate margin.delay margin.start tape → FitsBehindASilence margin.delay margin.start tape
        → AllByRecursion IsInterval (distances_from_start fineness threshold sound)
        × (length (distances_from_start fineness threshold sound) ≤ MAX_INTERVALS) }
{
    a_list_has_one_list_of_events();
    a_recording_within_the_tolerance_is_one_stretch();
    events_tell_the_tape();
    played_words_are_read();
    the_first_distance_leads_to_the_first_crossing();
}

/// A sound that ends while it goes over at the tape's last transition, and may not reach the high bound any
/// more, is heard too: each of its crossings comes within the delay of its own transition, and at most the
/// last one is missing.
pub fn a_sound_that_ends_while_it_goes_over_is_heard()
    ensures heard { (profile : Profile) (fineness : ℕ) (threshold : Threshold) (tape : List Cell) (sound : List ℤ)
        → 1 ≤ fineness → (margin : HasMarginToItsEnd profile fineness threshold tape sound)
        → AreHeard profile margin.delay tape 0 (moments fineness threshold sound) }
    ensures many { (profile : Profile) (fineness : ℕ) (threshold : Threshold) (tape : List Cell) (sound : List ℤ)
        → 1 ≤ fineness → (margin : HasMarginToItsEnd profile fineness threshold tape sound)
        → length (transitions margin.start tape) ≤ length (moments fineness threshold sound) + 1 }
{}

/// Between damage, under the normal and the worn tolerance: if a part of a sound has a margin for a
/// part of a tape, whatever comes before and behind it, the events find this part of the tape.
pub fn a_part_with_a_margin_is_found()
    ensures { (system : System) (profile : Profile) (fineness : ℕ) (threshold : Threshold) (tape : List Cell) (cut : ℕ)
        (sound : List ℤ) (first count : ℕ) (events : List Event) → LooksAtLast profile → 1 ≤ fineness
        → PartHasMargin profile fineness threshold tape cut sound first count
        → AreEvents system profile (distances fineness threshold sound) events
        → FindThePart system profile fineness threshold tape cut sound first count events }
{
    events_find_the_tape_again();
}

/// Between damage, under the rough tolerance: the same behind a run of even ones and its zero, as a sync
/// word has them, so also behind hiss before the tape. The run is one as it is found; and a run of the tape
/// is found as one if it would be even also with each interval a delay shorter or longer.
pub fn a_rough_part_with_a_margin_is_found_behind_even_ones()
    ensures { (system : System) (fineness : ℕ) (threshold : Threshold) (tape : List Cell) (cut : ℕ) (sound : List ℤ)
        (first count : ℕ) (events : List Event) → 1 ≤ fineness
        → (margin : PartHasMargin Rough fineness threshold tape cut sound first count)
        → AreEvents system Rough (distances fineness threshold sound) events
        → FindThePartBehindOnes system margin.delay fineness threshold tape cut sound first count events }
{
    events_find_the_tape_behind_even_ones();
}

/// The sound that `ltc-pcm` makes of a steady tape has a margin: of its size less the threshold, if that
/// is fixed. If it follows, the noise is at most a third of the size too. The tape's lengths are in
/// samples, and those that are found in ticks: it is steady for a delay of one sample.
pub fn a_made_sound_has_a_margin()
    ensures fixed { (profile : Profile) (fineness size noise threshold : ℕ) (tape : List Cell) (noisy : List ℤ)
        → 1 ≤ fineness → 1 ≤ threshold → threshold + noise ≤ size
        → IsNoisy (λ place. noise) (sound size (flat tape)) noisy → IsSteady profile 1 tape
        → HasMargin profile fineness (Fixed threshold) (scaled fineness tape) noisy }
    ensures followed { (profile : Profile) (fineness size noise : ℕ) (threshold : Threshold) (tape : List Cell)
        (noisy : List ℤ) → 1 ≤ fineness → 1 ≤ least_of threshold → least_of threshold + noise ≤ size
        → 3 * noise ≤ size → IsNoisy (λ place. noise) (sound size (flat tape)) noisy → IsSteady profile 1 tape
        → HasMargin profile fineness threshold (scaled fineness tape) noisy }
    ensures bits { (times : ℕ) (tape : List Cell) → bits (scaled times tape) ≡ bits tape }
{
    levels_are_bounded();
}
