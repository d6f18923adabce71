//! The cells of a word, and whether its row counts. Read next: `heights`.
ghost use Rattle.std.specs.Prelude.{◌≡◌, ℕ, ◌+◌, ◌*◌, ◌^◌, ◌<◌, ◌≤◌, get_or};
ghost use Rattle.luma_row.specs.Cells.{cell, cells_of, counts, standing_out, stands_out, swing};
ghost use Rattle.luma_row.specs.KeptCells.{AreCells};
ghost use Rattle.luma_row.specs.KeptLight.{AreSums};
ghost use Rattle.luma_row.specs.KeptPlace.{IsNear};
ghost use Rattle.luma_row.specs.Light.{darkest, IsRow};

use crate::light::{Sums, light};
use crate::place::Place;

/// How many bits a word has.
pub(crate) const BITS: usize = 90;

/// The light of each cell.
pub(crate) type Cells = [u32; BITS];

/// The light of the middle six eighths of a cell, beyond that of the darkest pixel.
pub(crate) fn cell(row: &[u8], sums: &Sums, dark: u8, place: Place, bit: usize) -> u32
    requires row { IsRow row.now }
    requires sums { AreSums row.now sums.now }
    requires dark { dark ≡ darkest row.now }
    requires place { IsNear place }
    requires bit { bit < 90 }
    ensures cell { result ≡ cell row.now place bit }
    ensures most { result ≤ 2 ^ 24 }
{
    let begin = place.eighth(8 * bit as u32 + 1);
    let end = place.eighth(8 * bit as u32 + 7);
    let all = light(row, sums, end).saturating_sub(light(row, sums, begin));
    all.saturating_sub(u32::from(dark) * end.saturating_sub(begin))
}

/// The cells of a word.
pub(crate) fn cells_of(row: &[u8], sums: &Sums, dark: u8, place: Place) -> Cells
    requires row { IsRow row.now }
    requires sums { AreSums row.now sums.now }
    requires dark { dark ≡ darkest row.now }
    requires place { IsNear place }
    ensures cells { result ≡ cells_of row.now place }
    ensures most { AreCells result }
{
    let mut cells = [0; BITS];
    for bit in 0..BITS {
        cells[bit] = cell(row, sums, dark, place, bit);
    }
    cells
}

/// The swing of all nine sync pairs.
pub(crate) fn swing_of(cells: &Cells) -> u32
    requires { AreCells cells.now }
    ensures swing { result ≡ swing cells.now }
    ensures most { result ≤ 2 ^ 28 }
{
    let mut light = 0;
    let mut dark = 0;
    for pair in 0..9usize {
        light += cells[10 * pair];
        dark += cells[10 * pair + 1];
    }
    light.saturating_sub(dark)
}

/// 1 where a sync pair stands out.
fn stands_out(cells: &Cells, total: u32, pair: usize) -> u32
    requires cells { AreCells cells.now }
    requires total { total ≡ swing cells.now }
    requires pair { pair < 9 }
    ensures stands { result ≡ stands_out cells.now pair }
    ensures most { result ≤ 1 }
{
    let swing = cells[10 * pair].saturating_sub(cells[10 * pair + 1]);
    if total <= 72 * swing { 1 } else { 0 }
}

/// How many sync pairs stand out.
fn standing_out(cells: &Cells, total: u32) -> u32
    requires cells { AreCells cells.now }
    requires total { total ≡ swing cells.now }
    ensures { result ≡ standing_out cells.now }
{
    let mut count = 0;
    for pair in 0..9usize {
        count += stands_out(cells, total, pair);
    }
    count
}

/// Whether the row counts.
pub(crate) fn counts(place: Place, cells: &Cells, total: u32) -> bool
    requires place { IsNear place }
    requires cells { AreCells cells.now }
    requires total { total ≡ swing cells.now }
    ensures { result ≡ counts place cells.now }
{
    81 * u64::from(place.last - place.first) <= 160 * u64::from(total)
        && 7 <= standing_out(cells, total)
}
