//! How fields lie in bytes, and which of their rows are looked at. Read next: `reader`.
ghost use Rattle.std.specs.Prelude.{◌≡◌};
ghost use Rattle.luma_field.specs.Raster.{raster_of, IsRaster};

use std::marker::Model;

/// The rows of the highest field.
pub const MAX_HEIGHT: u32 = 4_096;

/// So many rows are looked at, at most.
pub const MAX_ROWS: u32 = 40;

/// Fields of gray pixels, a byte each, row behind row.
#[derive(Clone, Copy)]
pub struct Raster {
    width: u32,
    height: u32,
    first: u32,
    rows: u32,
}

impl Model for Raster {
    ghost use Rattle.luma_field.specs.Raster.{raster_of, IsRaster, RasterSize};

    ghost Value = { RasterSize };

    ghost view = { λ s. raster_of s.width s.height s.first s.rows };

    ghost invariant = { λ s. IsRaster (raster_of s.width s.height s.first s.rows) };

    ghost inverse = { λ s. record { width = s.width; height = s.height; first = s.first; rows = s.rows } };
}

impl Raster {
    /// Fields of this width and height, of which so many rows are looked at, from the first on.
    pub fn new(width: u32, height: u32, first: u32, rows: u32) -> Raster
        requires { IsRaster (raster_of width height first rows) }
        ensures { result ≡ raster_of width height first rows }
    {
        Raster {
            width,
            height,
            first,
            rows,
        }
    }

    /// The pixels of a row, from 360 to 4,096.
    pub fn width(&self) -> u32
        ensures value { result ≡ self.now.width }
        ensures valid { IsRaster self.now }
    {
        self.width
    }

    /// The rows of a field, up to `MAX_HEIGHT`.
    pub fn height(&self) -> u32
        ensures value { result ≡ self.now.height }
        ensures valid { IsRaster self.now }
    {
        self.height
    }

    /// The number of the first row that is looked at, from 0.
    pub fn first(&self) -> u32
        ensures value { result ≡ self.now.first }
        ensures valid { IsRaster self.now }
    {
        self.first
    }

    /// How many rows are looked at, from 1 to `MAX_ROWS`.
    pub fn rows(&self) -> u32
        ensures value { result ≡ self.now.rows }
        ensures valid { IsRaster self.now }
    {
        self.rows
    }
}
