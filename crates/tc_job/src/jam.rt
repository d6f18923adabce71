//! What the words of `ltc-jam` say: how the frames are had, and what the clean recording is made of.
ghost use Rattle.std.specs.Prelude.{◌≡◌};
ghost use Rattle.tc_job.specs.Jam.{IsJamming, jamming_of};

use crate::flight::Flight;
use std::marker::Model;

/// A clean recording that is to be made of a damaged one.
#[derive(Clone, Copy)]
pub struct Jam {
    flight: Flight,
    cell: u32,
    tick_rate: u32,
}

impl Model for Jam {
    ghost use Rattle.tc_job.specs.Jam.{IsJamming, Jamming, jamming_of};

    ghost Value = { Jamming };

    ghost view = { λ j. record { flight = j.flight; cell = j.cell; tick_rate = j.tick_rate } };

    ghost invariant = { λ j. IsJamming (jamming_of j.flight j.cell j.tick_rate) };

    ghost inverse = { λ j. record { flight = j.flight; cell = j.cell; tick_rate = j.tick_rate } };
}

impl Jam {
    /// Of the frames of this flight, in cells of this many ticks, at this tick rate.
    pub fn new(flight: Flight, cell: u32, tick_rate: u32) -> Jam
        requires { IsJamming (jamming_of flight cell tick_rate) }
        ensures { result ≡ jamming_of flight cell tick_rate }
    {
        Jam {
            flight,
            cell,
            tick_rate,
        }
    }

    /// How the frames are had.
    pub fn flight(&self) -> Flight
        ensures { result ≡ self.now.flight }
    {
        self.flight
    }

    /// How many ticks a cell lasts.
    pub fn cell(&self) -> u32
        ensures value { result ≡ self.now.cell }
        ensures valid { IsJamming self.now }
    {
        self.cell
    }

    /// Ticks a second, from 1 to `MAX_TICK_RATE` of `limits`.
    pub fn tick_rate(&self) -> u32
        ensures value { result ≡ self.now.tick_rate }
        ensures valid { IsJamming self.now }
    {
        self.tick_rate
    }
}
