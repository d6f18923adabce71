//! How the samples of a sound become steps.
ghost use Rattle.std.specs.Prelude.{◌≡◌, ◌≤◌, ◌*◌, ◌^◌, IfSome};
ghost use Rattle.limits.specs.declared.recording.TheConstants.{MAX_TICK_RATE};
ghost use Rattle.step_grid.specs.Grid.{IsGrid};
ghost use Rattle.tc_job.specs.PathGrid.{grid_for, is_fit, step_ticks, steps_of_cell};
ghost use Rattle.tc_job.specs.declared.slicing.TheConstants.{MAX_FINENESS};

use limits::MAX_TICK_RATE;
use step_grid::{Grid, MAX_TICKS};
use tc_address::{System, rate};

/// The grids that are tried, those with the most steps for a sample first.
const GRIDS: [Grid; 16] = [
    Grid::Repeat(8),
    Grid::Repeat(4),
    Grid::Repeat(2),
    Grid::Repeat(1),
    Grid::Sum(2),
    Grid::Sum(4),
    Grid::Sum(8),
    Grid::Sum(16),
    Grid::Sum(32),
    Grid::Sum(64),
    Grid::Sum(128),
    Grid::Sum(256),
    Grid::Sum(512),
    Grid::Sum(1_024),
    Grid::Sum(2_048),
    Grid::Sum(4_096),
];

/// How many steps a cell at play speed has, rounded down, in sound of this rate in samples a second.
fn steps_of_cell(system: System, samples: u32, grid: Grid) -> u64
    requires { IsGrid grid }
    ensures { result ≡ steps_of_cell system samples grid }
{
    let cells = 80 * u64::from(rate(system));
    match grid {
        Grid::Repeat(repeats) => u64::from(samples) * u64::from(repeats) / cells,
        Grid::Sum(summed) => u64::from(samples) / (cells * u64::from(summed)),
    }
}

/// A cell at play speed has 14 to 27 steps.
fn is_fit(system: System, samples: u32, grid: Grid) -> bool
    requires { IsGrid grid }
    ensures { result ≡ is_fit system samples grid }
{
    let steps = steps_of_cell(system, samples, grid);
    14 <= steps && steps <= 27
}

/// The grid of sound of this rate in samples a second. There is none if a cell at play speed has too few
/// samples: fewer than 140 times the frames of a second. Of a thousand million samples a second there is one.
pub fn grid_for(system: System, samples: u32) -> Option<Grid>
    requires { samples ≤ MAX_TICK_RATE }
    ensures value { result ≡ grid_for system samples }
    ensures grid { IfSome result (λ grid. IsGrid grid) }
{
    for grid in &GRIDS {
        if is_fit(system, samples, *grid) {
            return Some(*grid);
        }
    }
    None
}

/// How many ticks a step has, if a sample has this many. There is none if it would have no whole number
/// of them, only one, or more than `MAX_TICKS`.
pub fn step_ticks(fineness: u32, grid: Grid) -> Option<u32>
    requires least { 1 ≤ fineness }
    requires most { fineness ≤ MAX_FINENESS }
    requires grid { IsGrid grid }
    ensures value { result ≡ step_ticks fineness grid }
    ensures range { IfSome result (λ ticks. (2 ≤ ticks) × (ticks ≤ 2 ^ 16)) }
{
    match grid {
        Grid::Repeat(repeats) => {
            if fineness % repeats == 0 && 2 <= fineness / repeats {
                Some(fineness / repeats)
            } else {
                None
            }
        }
        Grid::Sum(summed) => {
            let ticks = fineness * summed;
            if ticks <= MAX_TICKS {
                Some(ticks)
            } else {
                None
            }
        }
    }
}
