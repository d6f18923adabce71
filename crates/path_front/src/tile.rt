//! The intervals of cells.
ghost use Rattle.std.specs.Prelude.{◌≡◌, ◌^◌, ◌<◌, ◌≤◌, ◌∷◌, length};
ghost use Rattle.std.specs.Option.{option_to_list};
ghost use Rattle.path_front.specs.Measured.{IsMeasured};
ghost use Rattle.path_front.specs.Tiles.{cut, tiles_of};

use crate::gate::Judged;
use arrayvec::ArrayVec;
use cell_path::Bit;
use step_grid::MAX_TICKS;

/// The intervals of a cell: one, or two halves, and a tick in front of them if the stretch breaks.
pub type Tiles = ArrayVec<u32, 3>;

/// One or two intervals, and a tick cut off their front if the stretch breaks.
fn cut_off(breaks: bool, first: u32, second: Option<u32>) -> Tiles
    requires { 2 ≤ first }
    ensures { result.items ≡ cut breaks (first ∷ option_to_list second) }
{
    let mut tiles = Tiles::new();
    if breaks {
        tiles.push(1);
        tiles.push(first - 1);
    } else {
        tiles.push(first);
    }
    if let Some(second) = second {
        tiles.push(second);
    }
    tiles
}

/// The intervals of a cell, if a step has `ticks` ticks.
pub fn tiled(ticks: u32, judged: &Judged) -> Tiles
    requires least { 2 ≤ ticks }
    requires most { ticks ≤ MAX_TICKS }
    requires cell { IsMeasured judged.now.cell }
    ensures value { result.items ≡ tiles_of ticks judged.now }
    ensures some { 0 < length result.items }
    ensures few { length result.items ≤ 3 }
{
    let cell = &judged.cell;
    let whole = cell.span * ticks;
    match cell.bit {
        Bit::Zero => cut_off(judged.breaks, whole, None),
        Bit::One => {
            let half = (cell.length * ticks).div_ceil(2);
            let second = half.min(whole - 2);
            cut_off(
                judged.breaks || whole < half + 2,
                whole - second,
                Some(second),
            )
        }
    }
}
