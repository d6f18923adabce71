//! What the words of `ltc-chase` say: where the chase begins, how the frames are had that it follows, and how the
//! transport slips.
ghost use Rattle.std.specs.Prelude.{◌≡◌};
ghost use Rattle.tc_job.specs.ChaseRun.{IsChasing, chasing_of};

use crate::flight::Flight;
use std::marker::Model;
use tc_address::Label;

/// How far a transport may be made to slip in a step, in subframes.
pub const MAX_SLIP: u32 = 1_000;

/// A chase over the frames of a recording, whose transport slips by chance.
#[derive(Clone, Copy)]
pub struct ChaseRun {
    label: Label,
    flight: Flight,
    seed: u64,
    bound: u32,
}

impl Model for ChaseRun {
    ghost use Rattle.tc_job.specs.ChaseRun.{Chasing, IsChasing, chasing_of};

    ghost Value = { Chasing };

    ghost view = { λ c. record { label = c.label; flight = c.flight; seed = c.seed; bound = c.bound } };

    ghost invariant = { λ c. IsChasing (chasing_of c.label c.flight c.seed c.bound) };

    ghost inverse = { λ c. record { label = c.label; flight = c.flight; seed = c.seed; bound = c.bound } };
}

impl ChaseRun {
    /// From this label on, over the frames of this flight, and with slips from this seed of at most this many
    /// subframes.
    pub fn new(label: Label, flight: Flight, seed: u64, bound: u32) -> ChaseRun
        requires { IsChasing (chasing_of label flight seed bound) }
        ensures { result ≡ chasing_of label flight seed bound }
    {
        ChaseRun {
            label,
            flight,
            seed,
            bound,
        }
    }

    /// Where the transport begins, with the count of the chase.
    pub fn label(&self) -> Label
        ensures value { result ≡ self.now.label }
        ensures valid { IsChasing self.now }
    {
        self.label
    }

    /// How the frames are had.
    pub fn flight(&self) -> Flight
        ensures { result ≡ self.now.flight }
    {
        self.flight
    }

    /// The seed of the slips.
    pub fn seed(&self) -> u64
        ensures { result ≡ self.now.seed }
    {
        self.seed
    }

    /// How far the transport slips in a step at most, in subframes: from 0 to `MAX_SLIP`.
    pub fn bound(&self) -> u32
        ensures value { result ≡ self.now.bound }
        ensures valid { IsChasing self.now }
    {
        self.bound
    }
}
