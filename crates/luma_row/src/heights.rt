//! How high the light of each cell stands above its threshold. Read next: `levels`.
ghost use Rattle.std.specs.Prelude.{◌≡◌, ℕ, ◌+◌, ◌-◌, ◌*◌, ◌^◌, ◌<◌, ◌≤◌, pos, ◌-ℤ◌, unsigned_abs};
ghost use Rattle.luma_row.specs.Heights.{above, below, height, heights_of, middle, pair_before, smoothed};
ghost use Rattle.luma_row.specs.KeptCells.{AreCells};
ghost use Rattle.luma_row.specs.KeptHeights.{AreHeights, AreSmoothed};

use crate::cells::{BITS, Cells};

/// The height of each cell's light above its threshold, in 160ths.
pub type Heights = [i64; BITS];

/// The smoothed middles of the sync pairs, eight times.
type Middles = [u32; 9];

/// The middle of a sync pair, twice.
fn middle(cells: &Cells, pair: usize) -> u32
    requires cells { AreCells cells.now }
    requires pair { pair < 9 }
    ensures middle { result ≡ middle cells.now pair }
    ensures most { result ≤ 2 ^ 25 }
{
    cells[10 * pair] + cells[10 * pair + 1]
}

/// The smoothed middle of a sync pair.
fn smoothed(cells: &Cells, pair: usize) -> u32
    requires cells { AreCells cells.now }
    requires pair { pair < 9 }
    ensures smoothed { result ≡ smoothed cells.now pair }
    ensures most { result ≤ 2 ^ 27 }
{
    let before = middle(cells, pair.saturating_sub(1));
    let behind = middle(cells, (pair + 1).min(8));
    before + 2 * middle(cells, pair) + behind
}

/// The smoothed middles of all.
fn middles(cells: &Cells) -> Middles
    requires { AreCells cells.now }
    ensures { AreSmoothed cells.now result }
{
    let mut middles = [0; 9];
    for pair in 0..9usize {
        middles[pair] = smoothed(cells, pair);
    }
    middles
}

/// A smoothed middle so many times.
fn times(count: usize, middle: u32) -> u64
    requires count { count ≤ 64 }
    requires middle { middle ≤ 2 ^ 27 }
    ensures times { result ≡ count * middle }
    ensures most { result ≤ 2 ^ 33 }
{
    count as u64 * u64::from(middle)
}

/// The smoothed middle of a sync pair, out of the table.
fn middle_at(cells: &Cells, middles: &Middles, pair: usize) -> u32
    requires middles { AreSmoothed cells.now middles.now }
    requires pair { pair < 9 }
    ensures middle { result ≡ smoothed cells.now pair }
    ensures most { result ≤ 2 ^ 27 }
{
    let _ = cells;
    middles[pair]
}

/// The pair before a bit.
fn pair_before(bit: usize) -> usize
    requires { bit < 90 }
    ensures pair { result ≡ pair_before bit }
    ensures within { result ≤ 7 }
{
    ((2 * bit).saturating_sub(1) / 20).min(7)
}

/// What speaks for light.
fn above(cells: &Cells, middles: &Middles, bit: usize) -> u64
    requires cells { AreCells cells.now }
    requires middles { AreSmoothed cells.now middles.now }
    requires bit { bit < 90 }
    ensures above { result ≡ above cells.now bit }
    ensures most { result ≤ 2 ^ 35 }
{
    let pair = pair_before(bit);
    let light = 160 * u64::from(cells[bit]);
    let near = times(
        (2 * bit).saturating_sub(20 * pair + 21),
        middle_at(cells, middles, pair),
    );
    let next = times(
        (20 * pair + 1).saturating_sub(2 * bit),
        middle_at(cells, middles, pair + 1),
    );
    light + near + next
}

/// What speaks against it.
fn below(cells: &Cells, middles: &Middles, bit: usize) -> u64
    requires middles { AreSmoothed cells.now middles.now }
    requires bit { bit < 90 }
    ensures below { result ≡ below cells.now bit }
    ensures most { result ≤ 2 ^ 35 }
{
    let pair = pair_before(bit);
    let near = times(
        (20 * pair + 21).saturating_sub(2 * bit),
        middle_at(cells, middles, pair),
    );
    let next = times(
        (2 * bit).saturating_sub(20 * pair + 1),
        middle_at(cells, middles, pair + 1),
    );
    near + next
}

/// By how much the first is greater.
fn difference(above: u64, below: u64) -> i64
    requires above { above ≤ 2 ^ 35 }
    requires below { below ≤ 2 ^ 35 }
    ensures value { result ≡ pos above -ℤ pos below }
    ensures size { unsigned_abs result ≤ 2 ^ 35 }
{
    above as i64 - below as i64
}

/// The height of a cell's light.
fn height(cells: &Cells, middles: &Middles, bit: usize) -> i64
    requires cells { AreCells cells.now }
    requires middles { AreSmoothed cells.now middles.now }
    requires bit { bit < 90 }
    ensures height { result ≡ height cells.now bit }
    ensures size { unsigned_abs result ≤ 2 ^ 35 }
{
    difference(above(cells, middles, bit), below(cells, middles, bit))
}

/// The heights of all cells.
pub(crate) fn heights_of(cells: &Cells) -> Heights
    requires { AreCells cells.now }
    ensures heights { result ≡ heights_of cells.now }
    ensures size { AreHeights (2 ^ 35) result }
{
    let middles = middles(cells);
    let mut heights = [0; BITS];
    for bit in 0..BITS {
        heights[bit] = height(cells, &middles, bit);
    }
    heights
}
