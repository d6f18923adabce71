//! The intervals of frames, in cells of one length.
ghost use Rattle.std.specs.Prelude.{◌≡◌, ◌+◌, ◌≤◌, ◌++◌};
ghost use Rattle.arrayvec.specs.ArrayVec.{array_vec_len};
ghost use Rattle.biphase.specs.Chain.{flat, intervals_of};
ghost use Rattle.biphase.specs.Shape.{cell_with, IsShaped};
ghost use Rattle.direction_reader.specs.Played.{low_bits};
ghost use Rattle.ltc_jam.specs.Cells.{intervals_of_frame, intervals_of_lead, steady_cells};

use crate::word::played_bits;
use arrayvec::ArrayVec;
use flywheel::Frame;

/// How many intervals 80 cells have at most: two for each one.
const MOST: usize = 160;

/// The intervals that come first, in cells of `cell` ticks: a zero and a one, by which a reader locks.
pub fn lead(cell: u32) -> ArrayVec<u32, 160>
    requires { IsShaped cell }
    ensures { result.items ≡ intervals_of_lead cell }
{
    let mut intervals = ArrayVec::new();
    push_cell(&mut intervals, cell, false);
    push_cell(&mut intervals, cell, true);
    intervals
}

/// The intervals of a frame, in cells of `cell` ticks: none if the time code is gone.
pub fn frame_cells(cell: u32, frame: &Frame) -> ArrayVec<u32, 160>
    requires { IsShaped cell }
    ensures { result.items ≡ intervals_of_frame cell frame.now }
{
    match frame {
        Frame::Heard {
            label,
            direction,
            ..
        } => cells_of(cell, played_bits(*direction, label)),
        Frame::Invented {
            label,
            direction,
            ..
        } => cells_of(cell, played_bits(*direction, label)),
        Frame::Gone { .. } => ArrayVec::new(),
    }
}

/// The intervals of 80 bits, bit 0 first.
fn cells_of(cell: u32, bits: u128) -> ArrayVec<u32, 160>
    ensures { result.items ≡ flat (steady_cells cell (low_bits 80 bits)) }
{
    let mut intervals = ArrayVec::new();
    let mut rest = bits;
    'cells: for _done in 0..80u32 {
        push_cell(&mut intervals, cell, rest % 2 == 1);
        rest /= 2;
    }
    intervals
}

/// A cell with this bit: a zero is one interval, and a one is two halves, of which the first is no longer.
fn push_cell(intervals: &mut ArrayVec<u32, 160>, cell: u32, bit: bool)
    requires { array_vec_len intervals.old + 2 ≤ MOST }
    ensures items { intervals.new.items ≡ intervals.old.items ++ intervals_of (cell_with cell bit) }
    ensures len { array_vec_len intervals.new ≤ array_vec_len intervals.old + 2 }
{
    if bit {
        intervals.push(cell / 2);
        intervals.push(cell - cell / 2);
    } else {
        intervals.push(cell);
    }
}
