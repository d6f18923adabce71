//! What the words of `luma-vitc` say: the system of the time code, and how the fields lie in bytes. Read next:
//! `luma_field/src/raster.rt`.
ghost use Rattle.std.specs.Prelude.{◌≡◌};
ghost use Rattle.tc_job.specs.LumaRun.{luma_reading_of, IsLumaReading};
ghost use Rattle.vitc_line.specs.Places.{HasLines};

use luma_field::Raster;
use std::marker::Model;
use tc_address::System;

/// Fields of pixels that are to be read.
#[derive(Clone, Copy)]
pub struct LumaRun {
    system: System,
    raster: Raster,
}

impl Model for LumaRun {
    ghost use Rattle.tc_job.specs.LumaRun.{luma_reading_of, IsLumaReading, LumaReading};

    ghost Value = { LumaReading };

    ghost view = { λ s. record { system = s.system; raster = s.raster } };

    ghost invariant = { λ s. IsLumaReading (luma_reading_of s.system s.raster) };

    ghost inverse = { λ s. record { system = s.system; raster = s.raster } };
}

impl LumaRun {
    /// Fields that lie so, of time code of this system.
    pub fn new(system: System, raster: Raster) -> LumaRun
        requires { HasLines system }
        ensures { result ≡ luma_reading_of system raster }
    {
        LumaRun { system, raster }
    }

    /// 25 or 30 frames.
    pub fn system(&self) -> System
        ensures value { result ≡ self.now.system }
        ensures valid { IsLumaReading self.now }
    {
        self.system
    }

    /// How the fields lie in bytes, and which of their rows are looked at.
    pub fn raster(&self) -> Raster
        ensures { result ≡ self.now.raster }
    {
        self.raster
    }
}
