//! What follows from the definitions alone.
ghost use Rattle.std.specs.Prelude.{◌≡◌, ℕ, ◌+◌, ◌*◌, ◌≤◌, ℤ, List, ◌++◌, length, take};
ghost use Rattle.std.specs.List.{sum, All};
ghost use Rattle.limits.specs.declared.recording.TheConstants.{MAX_INTERVAL};
ghost use Rattle.path_front.specs.declared.clip.TheConstants.{CLIP};
ghost use Rattle.path_front.specs.declared.gate.TheConstants.{NEIGHBOURS};
ghost use Rattle.path_front.specs.declared.gate.Ear.{Ear};
ghost use Rattle.path_front.specs.declared.gate.Judged.{Judged};
ghost use Rattle.path_front.specs.declared.latest.TheConstants.{KEPT};
ghost use Rattle.path_front.specs.declared.measured.Measured.{Measured};
ghost use Rattle.path_front.specs.declared.sizes.TheConstants.{MEANS};
ghost use Rattle.step_grid.specs.declared.grid.Grid.{Grid};
ghost use Rattle.path_front.specs.declared.judging.Phase.TheVariants.{Sound};
ghost use Rattle.path_front.specs.Front.{AreIntervals, AreIntervalsSoFar, FrontStandsFor, FrontState};
ghost use Rattle.step_grid.specs.declared.grid.TheConstants.{MAX_TICKS};
ghost use Rattle.path_front.specs.Gate.{breaks};
ghost use Rattle.path_front.specs.Measured.{IsMeasured};
ghost use Rattle.step_grid.specs.Grid.{AreStepsOf, IsGrid};
ghost use Rattle.path_front.specs.Steps.{sounds_of};
ghost use Rattle.path_front.specs.Tiles.{tiles_of, IsSaid};

use cell_path::laws::{
    cells_are_decided_of_each_sound, one_list_is_decided, one_list_is_decided_in_all,
    the_cells_cover_the_sound, the_cells_decided_so_far_lie_in_the_sound,
    the_cells_of_a_sound_lie_near_one_another, what_is_decided_stays,
};

/// Of how many sounds a mean size is, at what size samples are clipped, how many steps are kept, and at how
/// many neighbours the gate looks.
pub fn the_numbers_are_these()
    ensures means { MEANS ≡ 512 }
    ensures clip { CLIP ≡ 3 }
    ensures kept { KEPT ≡ 4_096 }
    ensures neighbours { NEIGHBOURS ≡ 8 }
{}

/// Joined again, the intervals of a cell last as long as it does, and none is nothing.
pub fn the_intervals_of_a_cell_last_as_long()
    ensures long { (ticks : ℕ) (judged : Judged) → 2 ≤ ticks → 2 ≤ judged.cell.span
        → sum (tiles_of ticks judged) ≡ judged.cell.span * ticks }
{}

/// Each interval of a cell is one that a file can say.
pub fn each_interval_of_a_cell_can_be_said()
    ensures { (ticks : ℕ) (judged : Judged) → 2 ≤ ticks → ticks ≤ MAX_TICKS → IsMeasured judged.cell
        → All IsSaid (tiles_of ticks judged) }
{}

/// So is each interval of a sound: it lasts from 1 to 16,777,215 ticks.
pub fn each_interval_of_a_sound_can_be_said()
    ensures said { (grid : Grid) (ticks least : ℕ) (samples : List ℤ) (intervals : List ℕ) → 2 ≤ ticks
        → ticks ≤ 65_536 → AreIntervals grid ticks least samples intervals
        → All (λ interval. (1 ≤ interval) × (interval ≤ 16_777_215)) intervals }
    ensures most { MAX_INTERVAL ≡ 16_777_215 }
{
    the_cells_cover_the_sound();
    the_cells_of_a_sound_lie_near_one_another();
}

/// The gate hears no further than eight cells on either side, so nothing but what lies beside a cell decides
/// whether the stretch breaks in front of it: no silence, and no noise, that is further away.
pub fn the_gate_hears_eight_cells_on_either_side()
    ensures { (ear : Ear) (before other : List Measured) (cell : Measured) (behind far : List Measured)
        → take NEIGHBOURS before ≡ take NEIGHBOURS other → take NEIGHBOURS behind ≡ take NEIGHBOURS far
        → breaks ear before cell behind ≡ breaks ear other cell far }
{}

/// The samples of a sound have one list of intervals.
pub fn a_sound_has_one_list_of_intervals()
    ensures { (grid : Grid) (ticks least : ℕ) (samples : List ℤ) (intervals others : List ℕ)
        → AreIntervals grid ticks least samples intervals → AreIntervals grid ticks least samples others
        → intervals ≡ others }
{
    one_list_is_decided_in_all();
}

/// The intervals of a sound last as long as its steps, or less than 25 steps shorter: so their ends are places in
/// the sound, from its first sample on. Of samples there are as many steps as the grid says.
pub fn the_intervals_of_a_sound_last_as_long()
    ensures long { (grid : Grid) (ticks least : ℕ) (samples : List ℤ) (intervals : List ℕ) → 2 ≤ ticks
        → AreIntervals grid ticks least samples intervals
        → (sum intervals ≤ ticks * length (sounds_of grid least samples))
        × (ticks * length (sounds_of grid least samples) ≤ sum intervals + 24 * ticks) }
    ensures steps { (grid : Grid) (least : ℕ) (samples : List ℤ) → IsGrid grid
        → AreStepsOf grid (length samples) (length (sounds_of grid least samples)) }
{
    the_cells_cover_the_sound();
}

/// What is given of a sound comes first among its intervals, however it goes on, and among those that its samples
/// bring so far; and once it has ended, too.
pub fn what_is_given_comes_first()
    ensures in_all { (state : FrontState) (samples more : List ℤ) (given intervals : List ℕ)
        → state.judging.phase ≡ Sound
        → FrontStandsFor state samples given
        → AreIntervals state.judging.cells.steps.grid state.ticks state.judging.cells.steps.hold.least
        (more ++ samples) intervals → (rest : List ℕ) × (intervals ≡ given ++ rest) }
    ensures so_far { (state : FrontState) (samples : List ℤ) (given intervals : List ℕ) → state.judging.phase ≡ Sound
        → FrontStandsFor state samples given
        → AreIntervalsSoFar state.judging.cells.steps.grid state.ticks state.judging.cells.steps.hold.least samples
        intervals → (rest : List ℕ) × (intervals ≡ given ++ rest) }
    ensures at_end { (state : FrontState) (samples : List ℤ) (given intervals : List ℕ)
        → (state.judging.phase ≡ Sound → ⊥) → FrontStandsFor state samples given
        → AreIntervals state.judging.cells.steps.grid state.ticks state.judging.cells.steps.hold.least samples
        intervals → (rest : List ℕ) × (intervals ≡ given ++ rest) }
{
    what_is_decided_stays();
    one_list_is_decided();
    one_list_is_decided_in_all();
}

/// What samples bring so far is one list of intervals, which comes first in what more samples bring, and in the
/// intervals of the whole sound. There is always such a list.
pub fn what_samples_bring_so_far_comes_first()
    ensures once { (grid : Grid) (ticks least : ℕ) (samples : List ℤ) (intervals others : List ℕ)
        → AreIntervalsSoFar grid ticks least samples intervals → AreIntervalsSoFar grid ticks least samples others
        → intervals ≡ others }
    ensures first { (grid : Grid) (ticks least : ℕ) (more samples : List ℤ) (intervals longer : List ℕ)
        → AreIntervalsSoFar grid ticks least samples intervals
        → AreIntervalsSoFar grid ticks least (more ++ samples) longer
        → (rest : List ℕ) × (longer ≡ intervals ++ rest) }
    ensures in_all { (grid : Grid) (ticks least : ℕ) (more samples : List ℤ) (intervals whole : List ℕ)
        → AreIntervalsSoFar grid ticks least samples intervals → AreIntervals grid ticks least (more ++ samples) whole
        → (rest : List ℕ) × (whole ≡ intervals ++ rest) }
    ensures some { (grid : Grid) (ticks least : ℕ) (samples : List ℤ)
        → (intervals : List ℕ) × AreIntervalsSoFar grid ticks least samples intervals }
    ensures whole { (grid : Grid) (ticks least : ℕ) (samples : List ℤ)
        → (intervals : List ℕ) × AreIntervals grid ticks least samples intervals }
{
    what_is_decided_stays();
    one_list_is_decided();
    the_cells_decided_so_far_lie_in_the_sound();
    cells_are_decided_of_each_sound();
}
