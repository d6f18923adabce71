//! The coarse place of a word. Read next: `climb`.
ghost use Rattle.std.specs.Prelude.{◌≡◌, ℕ, ◌+◌, ◌-◌, ◌*◌, ◌/◌, ◌^◌, ◌<◌, ◌≤◌, length, get_or};
ghost use Rattle.luma_row.specs.Choice.{greatest};
ghost use Rattle.luma_row.specs.Coarse.{best_at, coarse_sum, fall_at, pixel_of, step_to, sum_at, IsCoarse};
ghost use Rattle.luma_row.specs.KeptBest.{IsBestOf};
ghost use Rattle.luma_row.specs.KeptCoarse.{AreFalls, AreSteps, AreSumsAlong, AreSumsOfStarts};
ghost use Rattle.luma_row.specs.KeptPlace.{IsInRow};
ghost use Rattle.luma_row.specs.KeptLight.{AreSums};
ghost use Rattle.luma_row.specs.KeptTable.{IsFilled};
ghost use Rattle.luma_row.specs.Light.{IsRow};
ghost use Rattle.luma_row.specs.KeptWidth.{IsWidth};
ghost use Rattle.luma_row.specs.Width.{distances, grain, start, starts, ten_cells};

use crate::best::Best;
use crate::light::{EVEN, Sums, fall, light_in};
use crate::place::Place;
use crate::width::{MAX_WIDTH, distance, distances, grain, start, starts, ten_cells, width_of};

/// The falls at the pixels of a row.
pub(crate) type Falls = [u32; MAX_WIDTH];

/// The fall where a pixel begins.
fn fall_at(row: &[u8], sums: &Sums, reach: u32, pixel: usize) -> u32
    requires row { IsRow row.now }
    requires sums { AreSums row.now sums.now }
    requires reach { reach ≡ ten_cells (length row.now) / 10 }
    requires pixel { pixel < length row.now }
    ensures value { result ≡ fall_at row.now pixel }
    ensures most { result ≤ 2 ^ 26 }
{
    let place = 16 * pixel as u32;
    fall(row, sums, place.saturating_sub(reach), place, place + reach)
}

/// The fall where a pixel begins, a cell away from both ends of the row.
#[inline(always)]
fn fall_inside(row: &[u8], sums: &Sums, reach: u32, pixel: usize) -> u32
    requires row { IsRow row.now }
    requires sums { AreSums row.now sums.now }
    requires reach { reach ≡ ten_cells (length row.now) / 10 }
    requires left { reach / 16 < pixel }
    requires right { pixel + reach / 16 < length row.now }
    ensures value { result ≡ fall_at row.now pixel }
    ensures most { result ≤ 2 ^ 26 }
{
    let whole = (reach / 16) as usize;
    let before = light_in(row, sums, pixel - whole - 1, 16 - reach % 16);
    let behind = light_in(row, sums, pixel + whole, reach % 16);
    EVEN + 2 * light_in(row, sums, pixel, 0) - before - behind
}

/// Works out the falls at some of the first or the last pixels.
fn falls_near(row: &[u8], sums: &Sums, falls: &mut Falls, from: usize, to: usize)
    requires row { IsRow row.now }
    requires sums { AreSums row.now sums.now }
    requires falls { IsFilled (fall_at row.now) 4096 (2 ^ 26) from falls.old }
    requires order { from ≤ to }
    requires within { to ≤ length row.now }
    ensures { IsFilled (fall_at row.now) 4096 (2 ^ 26) to falls.new }
{
    let reach = ten_cells(width_of(row)) / 10;
    for pixel in from..to {
        falls[pixel] = fall_at(row, sums, reach, pixel);
    }
}

/// Works out the falls at pixels a cell away from both ends of the row.
fn falls_inside(row: &[u8], sums: &Sums, falls: &mut Falls, from: usize, to: usize)
    requires row { IsRow row.now }
    requires sums { AreSums row.now sums.now }
    requires falls { IsFilled (fall_at row.now) 4096 (2 ^ 26) from falls.old }
    requires order { from ≤ to }
    requires left { ten_cells (length row.now) / 10 / 16 < from }
    requires right { to + ten_cells (length row.now) / 10 / 16 ≤ length row.now }
    ensures { IsFilled (fall_at row.now) 4096 (2 ^ 26) to falls.new }
{
    let reach = ten_cells(width_of(row)) / 10;
    for pixel in from..to {
        falls[pixel] = fall_inside(row, sums, reach, pixel);
    }
}

/// Works out the falls of a row.
pub(crate) fn fall_along(row: &[u8], sums: &Sums, falls: &mut Falls)
    requires row { IsRow row.now }
    requires sums { AreSums row.now sums.now }
    ensures { AreFalls row.now falls.new }
{
    let width = row.len();
    let cell = (ten_cells(width_of(row)) / 10 / 16) as usize;
    falls_near(row, sums, falls, 0, cell + 1);
    falls_inside(row, sums, falls, cell + 1, width - cell);
    falls_near(row, sums, falls, width - cell, width);
}

/// The pixels from the first sync pair to another.
fn step_to(apart: u32, pair: usize) -> usize
    requires apart { apart < 2 ^ 17 }
    requires pair { pair < 9 }
    ensures step { result ≡ step_to apart pair }
    ensures most { result ≤ 2 ^ 18 }
{
    ((apart * pair as u32 / 8 + 8) / 16) as usize
}

/// The pixels from the first sync pair to each of them.
fn steps_of(apart: u32) -> [usize; 9]
    requires { apart < 2 ^ 17 }
    ensures { AreSteps apart result }
{
    let mut steps = [0; 9];
    for pair in 0..9usize {
        steps[pair] = step_to(apart, pair);
    }
    steps
}

/// The sum of the falls of nine sync pairs, of which the first stands at this pixel.
#[inline(always)]
fn sum_of_falls(row: &[u8], falls: &Falls, apart: u32, steps: &[usize; 9], pixel: usize) -> u32
    requires row { IsRow row.now }
    requires falls { AreFalls row.now falls.now }
    requires steps { AreSteps apart steps.now }
    requires within { 16 * pixel + apart + 16 < 16 * length row.now }
    ensures value { result ≡ coarse_sum row.now apart (16 * pixel) }
    ensures most { result ≤ 9 * 2 ^ 26 }
{
    let _ = row;
    let mut sum = 0;
    for pair in 0..9usize {
        sum += falls[pixel + steps[pair]];
    }
    sum
}

/// Works out the sums of nine falls, of which the first stands at one of so many pixels.
#[inline(never)]
fn sums_along(row: &[u8], falls: &Falls, apart: u32, count: usize, sums: &mut Falls)
    requires row { IsRow row.now }
    requires falls { AreFalls row.now falls.now }
    requires apart { apart < 2 ^ 17 }
    requires within { 16 * count + apart < 16 * length row.now }
    ensures { AreSumsAlong row.now apart count sums.new }
{
    let steps = steps_of(apart);
    for pixel in 0..count {
        sums[pixel] = sum_of_falls(row, falls, apart, &steps, pixel);
    }
}

/// The pixel of the start with this number.
#[inline(always)]
fn start_pixel(width: u32, number: u32) -> usize
    requires width { IsWidth width }
    requires number { number ≤ 2 ^ 8 }
    ensures { result ≡ pixel_of (start width number) }
{
    ((start(width, number) + 8) / 16) as usize
}

/// Works out the sums of the starts of one distance. Each stands at the pixel of its start.
fn sums_of_starts(row: &[u8], falls: &Falls, apart: u32, sums: &mut Falls)
    requires row { IsRow row.now }
    requires falls { AreFalls row.now falls.now }
    requires narrow { 12 * length row.now ≤ apart }
    requires wide { apart ≤ 14 * length row.now }
    ensures { AreSumsOfStarts row.now apart sums.new }
{
    let width = width_of(row);
    let last = start_pixel(width, starts(width, apart) - 1);
    sums_along(row, falls, apart, last + 1, sums);
}

/// The first of the best starts of one distance.
fn best_start(row: &[u8], falls: &Falls, apart: u32, sums: &mut Falls) -> Best
    requires row { IsRow row.now }
    requires falls { AreFalls row.now falls.now }
    requires narrow { 12 * length row.now ≤ apart }
    requires wide { apart ≤ 14 * length row.now }
    ensures { IsBestOf (starts (length row.now) apart) (sum_at row.now apart) result.sum result.number }
{
    sums_of_starts(row, falls, apart, sums);
    let width = width_of(row);
    let first = start_pixel(width, 0);
    let mut best = Best::first(sums[first]);
    for number in 1..starts(width, apart) {
        let pixel = start_pixel(width, number);
        best = best.or(sums[pixel], number);
    }
    best
}

/// The greatest sum of the starts of one distance, where a grain is a pixel: they stand side by side.
fn best_side_by_side(row: &[u8], falls: &Falls, apart: u32, sums: &mut Falls) -> u32
    requires row { IsRow row.now }
    requires falls { AreFalls row.now falls.now }
    requires narrow { 12 * length row.now ≤ apart }
    requires wide { apart ≤ 14 * length row.now }
    requires grain { grain (length row.now) ≡ 16 }
    ensures { result ≡ greatest (starts (length row.now) apart) (sum_at row.now apart) }
{
    sums_of_starts(row, falls, apart, sums);
    let width = width_of(row);
    let count = starts(width, apart);
    let first = start_pixel(width, 0);
    let mut most = 0;
    for number in 0..count as usize {
        most = most.max(sums[first + number]);
    }
    most
}

/// The greatest sum of the starts of one distance.
fn best_sum(row: &[u8], falls: &Falls, apart: u32, sums: &mut Falls) -> u32
    requires row { IsRow row.now }
    requires falls { AreFalls row.now falls.now }
    requires narrow { 12 * length row.now ≤ apart }
    requires wide { apart ≤ 14 * length row.now }
    ensures { result ≡ greatest (starts (length row.now) apart) (sum_at row.now apart) }
{
    if grain(width_of(row)) == 16 {
        best_side_by_side(row, falls, apart, sums)
    } else {
        best_start(row, falls, apart, sums).sum
    }
}

/// The first of the best distances.
fn best_distance(row: &[u8], falls: &Falls, sums: &mut Falls) -> Best
    requires row { IsRow row.now }
    requires falls { AreFalls row.now falls.now }
    ensures { IsBestOf (distances (length row.now)) (best_at row.now) result.sum result.number }
{
    let width = width_of(row);
    let mut best = Best::first(best_sum(row, falls, distance(width, 0), sums));
    for number in 1..distances(width) {
        let sum = best_sum(row, falls, distance(width, number), sums);
        best = best.or(sum, number);
    }
    best
}

/// A coarse place, and the sum of its falls.
#[derive(Clone, Copy)]
pub(crate) struct Coarse {
    pub(crate) place: Place,
    pub(crate) sum: u32,
}

/// The coarse place.
pub(crate) fn best_coarse(row: &[u8], falls: &Falls, sums: &mut Falls) -> Coarse
    requires row { IsRow row.now }
    requires falls { AreFalls row.now falls.now }
    ensures coarse { IsCoarse row.now result.sum result.place }
    ensures place { IsInRow result.place }
{
    let width = width_of(row);
    let best = best_distance(row, falls, sums);
    let apart = distance(width, best.number);
    let first = start(width, best_start(row, falls, apart, sums).number);
    let place = Place {
        first,
        last: first + apart,
    };
    Coarse {
        place,
        sum: best.sum,
    }
}
