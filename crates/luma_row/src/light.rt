//! The light of a row up to a place. Read next: `place`.
ghost use Rattle.std.specs.Prelude.{◌≡◌, ◌+◌, ◌*◌, ◌^◌, ◌<◌, ◌≤◌, length};
ghost use Rattle.luma_row.specs.KeptLight.{AreSums};
ghost use Rattle.luma_row.specs.Light.{fall, light, IsRow};

use crate::width::MAX_WIDTH;

/// One more than the pixels of the widest row.
pub(crate) const SUMS: usize = MAX_WIDTH + 1;

/// An even place, where as much light stands before as behind. A fall is counted from it.
pub const EVEN: u32 = 1 << 25;

/// The sums of the pixels up to each.
pub(crate) type Sums = [u32; SUMS];

/// Sums up the pixels.
pub(crate) fn sum_up(row: &[u8], sums: &mut Sums)
    requires { IsRow row.now }
    ensures { AreSums row.now sums.new }
{
    sums[0] = 0;
    let mut sum = 0;
    for at in 0..row.len() {
        sum += u32::from(row[at]);
        sums[at + 1] = sum;
    }
}

/// The light up to a place in sixteenths of a pixel: each pixel's level times sixteen.
pub(crate) fn light(row: &[u8], sums: &Sums, place: u32) -> u32
    requires row { IsRow row.now }
    requires sums { AreSums row.now sums.now }
    ensures value { result ≡ light row.now place }
    ensures most { result ≤ 2 ^ 24 }
{
    let pixel = (place / 16) as usize;
    if pixel < row.len() {
        16 * sums[pixel] + place % 16 * u32::from(row[pixel])
    } else {
        16 * sums[row.len()]
    }
}

/// The light up to so many sixteenths of a pixel.
#[inline(always)]
pub(crate) fn light_in(row: &[u8], sums: &Sums, pixel: usize, part: u32) -> u32
    requires row { IsRow row.now }
    requires sums { AreSums row.now sums.now }
    requires pixel { pixel < length row.now }
    requires part { part ≤ 16 }
    ensures value { result ≡ light row.now (16 * pixel + part) }
    ensures most { result ≤ 2 ^ 24 }
{
    16 * sums[pixel] + part * u32::from(row[pixel])
}

/// By how much more light comes before a place than behind it.
pub(crate) fn fall(row: &[u8], sums: &Sums, before: u32, place: u32, behind: u32) -> u32
    requires row { IsRow row.now }
    requires sums { AreSums row.now sums.now }
    ensures value { result ≡ fall row.now before place behind }
    ensures most { result ≤ 2 ^ 26 }
{
    EVEN + 2 * light(row, sums, place) - light(row, sums, before) - light(row, sums, behind)
}
