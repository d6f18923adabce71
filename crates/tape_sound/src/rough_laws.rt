//! What the rough tolerance bears from a lock on: a wider delay than at a lock.
ghost use Rattle.std.specs.Prelude.{◌≡◌, ℕ, ◌+◌, ◌-◌, ◌*◌, ◌<◌, ◌≤◌, List, [], ◌∷◌, take, drop, true, false};
ghost use Rattle.std.specs.List.{AllByRecursion};
ghost use Rattle.biphase.specs.declared.cell.Cell.{Cell};
ghost use Rattle.biphase.specs.declared.cell.Cell.TheVariants.{Zero, One};
ghost use Rattle.biphase.specs.declared.profile.Profile.TheVariants.{Rough};
ghost use Rattle.biphase.specs.Chain.{bits, Follow, FollowOn};
ghost use Rattle.biphase.specs.Tolerance.{latest_with, length_of};
ghost use Rattle.cell_tracker.specs.EvenRun.{IsEvenZero};
ghost use Rattle.cell_tracker.specs.Lock.{IsLock};
ghost use Rattle.direction_reader.specs.declared.event.Event.{Event};
ghost use Rattle.direction_reader.specs.ListEvents.{duration, AreEvents};
ghost use Rattle.direction_reader.specs.Played.{Played, AreSpelled, bits_of_words, events_of_words};
ghost use Rattle.tc_address.specs.declared.system.System.{System};
ghost use Rattle.tape_sound.specs.EvenTape.{AreEvenOnesFor};
ghost use Rattle.tape_sound.specs.Heard.{AreFoundCells};
ghost use Rattle.tape_sound.specs.Late.{AreFoundAs, IsSteadyFromALock, RunsEvenly};
ghost use Rattle.tape_sound.specs.OnTime.{AreOnTime};

use direction_reader::laws::{a_list_has_one_list_of_events, words_behind_a_lock_are_read};

/// From a lock on, if the reader does not lock again, the rough tolerance needs 12 drifts and 9 delays of
/// a cell, and no more: so the words of such a tape are read, each on time, if the reader locks at its
/// first cell. That a reader may lock at each zero is why 10 are needed. With 8 delays a cell may not follow.
pub fn a_rough_tape_bears_more_from_a_lock_on()
    ensures follow { (delay first : ℕ) (tape cells : List Cell) → first ≤ delay → IsSteadyFromALock delay tape
        → AreFoundAs delay first tape cells → FollowOn Rough cells }
    ensures words { (system : System) (delay : ℕ) (tape : List Cell) (intervals : List ℕ) (words : List Played)
        (events : List Event) → IsSteadyFromALock delay tape → AreFoundCells delay tape intervals
        → IsLock Rough intervals 0 0 → bits tape ≡ false ∷ true ∷ bits_of_words words → AreSpelled system words
        → AreEvents system Rough intervals events
        → AreOnTime delay events (events_of_words (duration (take 2 tape)) (drop 2 tape) words) }
    ensures fewer { (8 * 9 < 80) × AreFoundAs 9 9 (Zero 80 ∷ Zero 80 ∷ []) (Zero 71 ∷ Zero 89 ∷ [])
        × ¬ FollowOn Rough (Zero 71 ∷ Zero 89 ∷ []) }
{
    a_list_has_one_list_of_events();
    words_behind_a_lock_are_read();
}

/// Behind its first four cells a rough stretch bears a wider delay still: of a tape that runs evenly each
/// further cell follows as it is found if 47 delays last no longer than eight cells, since four cells
/// together are found as late as the last one, less the first. So if the reader locks at the first cell,
/// and the first four are found to follow, each word is read, on time. With 46 a cell may not follow.
pub fn a_rough_stretch_bears_more_behind_four_cells()
    ensures follow { (half delay first : ℕ) (tape : List Cell) (a b c d : Cell) (cells : List Cell) → 1 ≤ half
        → 47 * delay ≤ 16 * half → RunsEvenly half tape → first ≤ delay
        → AreFoundAs delay first tape (a ∷ b ∷ c ∷ d ∷ cells)
        → Follow Rough (latest_with (length_of d) (length_of c) (length_of b) (length_of a)) cells }
    ensures words { (system : System) (half delay : ℕ) (tape : List Cell) (intervals : List ℕ) (words : List Played)
        (events : List Event) → 1 ≤ half → 47 * delay ≤ 16 * half → RunsEvenly half tape
        → (found : AreFoundCells delay tape intervals) → FollowOn Rough (take 4 found.cells)
        → IsLock Rough intervals 0 0 → bits tape ≡ false ∷ true ∷ bits_of_words words → AreSpelled system words
        → AreEvents system Rough intervals events
        → AreOnTime delay events (events_of_words (duration (take 2 tape)) (drop 2 tape) words) }
    ensures fewer { (46 * 8 ≤ 16 * 23) × RunsEvenly 23 (Zero 46 ∷ Zero 46 ∷ Zero 46 ∷ Zero 46 ∷ One 23 23 ∷ [])
        × AreFoundAs 8 8 (Zero 46 ∷ Zero 46 ∷ Zero 46 ∷ Zero 46 ∷ One 23 23 ∷ [])
        (Zero 38 ∷ Zero 46 ∷ Zero 46 ∷ Zero 46 ∷ One 31 15 ∷ [])
        × ¬ Follow Rough (latest_with 46 46 46 38) (One 31 15 ∷ []) }
{
    a_list_has_one_list_of_events();
    words_behind_a_lock_are_read();
}

/// Ones without drift, and a zero behind them, are even also with each interval a delay shorter or longer
/// if a cell lasts 32 delays: so a sync word is a run behind which the tape is found again.
pub fn even_ones_have_room_for_a_delay()
    ensures ones { (half delay : ℕ) (ones : List Cell) → 16 * delay ≤ half
        → AllByRecursion (λ cell. cell ≡ One half half) ones → AreEvenOnesFor delay (2 * half) ones }
    ensures whole { (half delay : ℕ) → 16 * delay ≤ half
        → IsEvenZero (2 * half) (2 * half - delay) × IsEvenZero (2 * half) (2 * half + delay) }
{}
