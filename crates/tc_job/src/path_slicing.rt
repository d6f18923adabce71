//! What the words of `pcm-ltc .. path` say: sound whose best path is written.
ghost use Rattle.std.specs.Prelude.{◌≡◌, ◌*◌};
ghost use Rattle.tc_job.specs.PathSlicing.{IsPathSlicing, path_slicing_of};

use std::marker::Model;
use step_grid::Grid;
use tc_address::System;

/// Sound, and how its best path is written.
#[derive(Clone, Copy)]
pub struct PathSlicing {
    system: System,
    rate: u32,
    least: u32,
    fineness: u32,
    grid: Grid,
    ticks: u32,
}

impl Model for PathSlicing {
    ghost use Rattle.tc_job.specs.PathSlicing.{IsPathSlicing, SlicesPath, path_slicing_of};

    ghost Value = { SlicesPath };

    ghost view = { λ s. path_slicing_of s.system s.rate s.least s.fineness s.grid s.ticks };

    ghost invariant = { λ s. IsPathSlicing (path_slicing_of s.system s.rate s.least s.fineness s.grid s.ticks) };

    ghost inverse = { λ s. record {
      system = s.system;
      rate = s.rate;
      least = s.least;
      fineness = s.fineness;
      grid = s.grid;
      ticks = s.ticks;
    } };
}

impl PathSlicing {
    /// Sound of this system, at this rate in samples a second and of this level at least, in this many ticks a
    /// sample, on this grid, in this many ticks a step.
    pub fn new(
        system: System,
        rate: u32,
        least: u32,
        fineness: u32,
        grid: Grid,
        ticks: u32,
    ) -> PathSlicing
        requires { IsPathSlicing (path_slicing_of system rate least fineness grid ticks) }
        ensures { result ≡ path_slicing_of system rate least fineness grid ticks }
    {
        PathSlicing {
            system,
            rate,
            least,
            fineness,
            grid,
            ticks,
        }
    }

    /// The system of the time code.
    pub fn system(&self) -> System
        ensures { result ≡ self.now.system }
    {
        self.system
    }

    /// The least level of code, from 1 to `MAX_LEVEL`.
    pub fn least(&self) -> u32
        ensures value { result ≡ self.now.least }
        ensures valid { IsPathSlicing self.now }
    {
        self.least
    }

    /// How samples become steps.
    pub fn grid(&self) -> Grid
        ensures value { result ≡ self.now.grid }
        ensures valid { IsPathSlicing self.now }
    {
        self.grid
    }

    /// Ticks a step, two at least.
    pub fn ticks(&self) -> u32
        ensures value { result ≡ self.now.ticks }
        ensures valid { IsPathSlicing self.now }
    {
        self.ticks
    }

    /// Ticks a second, from 1 to `MAX_TICK_RATE` of `limits`.
    pub fn tick_rate(&self) -> u32
        ensures value { result ≡ self.now.rate * self.now.fineness }
        ensures valid { IsPathSlicing self.now }
    {
        self.rate * self.fineness
    }
}
