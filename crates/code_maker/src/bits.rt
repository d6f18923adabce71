//! Bits to the intervals of their cells. Read next: `biphase/src/shaper.rt`, and then `sound`.
ghost use Rattle.std.specs.Prelude.{◌≡◌, ◌+◌, ◌*◌, ◌≤◌, ◌<◌, ◌++◌, [], ◌∷◌, length, take, drop};
ghost use Rattle.biphase.specs.Chain.{intervals_of};
ghost use Rattle.direction_reader.specs.Played.{low_bits};
ghost use Rattle.code_maker.specs.Bits.{GoesOnBehind};

use biphase::{Cell, Shaper};

/// Writes the intervals of the cells of so many bits, bit 0 first, and gives how many these are.
pub fn put_bits(shaper: &mut Shaper, bits: u128, count: u32, ticks: &mut [u32]) -> usize
    requires few { count ≤ 128 }
    requires room { 2 * count ≤ length ticks.old }
    ensures most { result ≤ 2 * count }
    ensures cells { GoesOnBehind shaper.old (low_bits count bits) shaper.new (take result ticks.new) }
    ensures rest { drop result ticks.new ≡ drop result ticks.old }
{
    let mut rest = bits;
    let mut made = 0;
    'cells: for _done in 0..count {
        made = put_cell(shaper.next_cell(rest % 2 == 1), ticks, made);
        rest /= 2;
    }
    made
}

/// Writes the intervals of a cell behind those that are made, and gives how many are made then.
fn put_cell(cell: Cell, ticks: &mut [u32], made: usize) -> usize
    requires { made + 2 ≤ length ticks.old }
    ensures count { result ≡ made + length (intervals_of cell) }
    ensures most { result ≤ made + 2 }
    ensures writes { take result ticks.new ≡ take made ticks.old ++ intervals_of cell }
    ensures rest { drop result ticks.new ≡ drop result ticks.old }
{
    match cell {
        Cell::Zero(x) => put(x, ticks, made),
        Cell::One(first, second) => {
            let next = put(first, ticks, made);
            put(second, ticks, next)
        }
    }
}

/// Writes an interval behind those that are made, and gives how many are made then.
fn put(x: u32, ticks: &mut [u32], made: usize) -> usize
    requires { made < length ticks.old }
    ensures count { result ≡ made + 1 }
    ensures writes { take result ticks.new ≡ take made ticks.old ++ x ∷ [] }
    ensures rest { drop result ticks.new ≡ drop result ticks.old }
{
    ticks[made] = x;
    made + 1
}
