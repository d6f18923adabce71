//! What the width of a row says of the words in it, in sixteenths of a pixel. Read next: `light`.
ghost use Rattle.std.specs.Prelude.{◌≡◌, ◌≤◌, ◌*◌, ◌^◌, ◌<◌, length};
ghost use Rattle.luma_row.specs.Light.{IsRow};
ghost use Rattle.luma_row.specs.Width.{distance, distances, earliest, end, grain, narrowest, start, starts, ten_cells, widest};
ghost use Rattle.luma_row.specs.KeptWidth.{IsWidth};

/// The pixels of the narrowest row.
pub const MIN_WIDTH: usize = 360;

/// The pixels of the widest row.
pub const MAX_WIDTH: usize = 4_096;

/// The row's width.
pub(crate) fn width_of(row: &[u8]) -> u32
    requires { IsRow row.now }
    ensures value { result ≡ length row.now }
    ensures width { IsWidth result }
{
    row.len() as u32
}

/// Ten cells.
pub(crate) fn ten_cells(width: u32) -> u32
    requires { IsWidth width }
    ensures { result ≡ ten_cells width }
{
    width * 5 / 3
}

/// A 720th of the row.
pub(crate) fn grain(width: u32) -> u32
    requires { IsWidth width }
    ensures value { result ≡ grain width }
    ensures some { 0 < result }
{
    width * 16 / 720
}

/// Where a word ends at the latest.
pub(crate) fn end(width: u32) -> u32
    requires { IsWidth width }
    ensures { result ≡ end width }
{
    16 * width + 4 * grain(width)
}

/// The least distance from the first sync pair to the ninth.
pub(crate) fn narrowest(width: u32) -> u32
    requires { IsWidth width }
    ensures value { result ≡ narrowest width }
    ensures wide { result ≤ 14 * width }
{
    8 * ten_cells(width) * 95 / 100
}

/// The greatest one.
pub(crate) fn widest(width: u32) -> u32
    requires { IsWidth width }
    ensures value { result ≡ widest width }
    ensures wide { result ≤ 14 * width }
{
    8 * ten_cells(width) * 105 / 100
}

/// How many distances are looked at.
pub(crate) fn distances(width: u32) -> u32
    requires { IsWidth width }
    ensures { result ≡ distances width }
{
    (widest(width) - narrowest(width)) / (2 * grain(width)) + 1
}

/// The distance with this number.
pub(crate) fn distance(width: u32, number: u32) -> u32
    requires width { IsWidth width }
    requires number { number < distances width }
    ensures value { result ≡ distance width number }
    ensures narrow { 12 * width ≤ result }
    ensures wide { result ≤ 14 * width }
{
    narrowest(width) + 2 * grain(width) * number
}

/// How many starts are looked at, of one distance.
pub(crate) fn starts(width: u32, apart: u32) -> u32
    requires width { IsWidth width }
    requires apart { apart ≤ 14 * width }
    ensures { result ≡ starts width apart }
{
    (end(width) - 89 * apart / 80 - ten_cells(width) * 95 / 1000) / grain(width) + 1
}

/// The start with this number.
pub(crate) fn start(width: u32, number: u32) -> u32
    requires width { IsWidth width }
    requires number { number ≤ 2 ^ 8 }
    ensures { result ≡ start width number }
{
    ten_cells(width) * 95 / 1000 + grain(width) * number
}
