//! The transport and its one move.
ghost use Rattle.std.specs.Prelude.{◌≡◌, ◌<◌, ◌≤◌, unsigned_abs};
ghost use Rattle.tc_address.specs.Circle.{moved};
ghost use Rattle.transport_model.specs.Move.{day_of, after_move, IsInRange};

use std::marker::Model;
use tc_address::{Count, day_subframes};

/// A tape at a position of the day.
#[derive(Clone, Copy)]
pub struct Transport {
    count: Count,
    position: u32,
}

impl Model for Transport {
    ghost use Rattle.std.specs.Prelude.{◌<◌};
    ghost use Rattle.transport_model.specs.Move.{TransportState, day_of};

    ghost Value = { TransportState };

    ghost view = { λ t. record { count = t.count; position = t.position } };

    ghost invariant = { λ t. t.position < day_of t.count };

    ghost inverse = { λ s. record { count = s.count; position = s.position } };
}

/// The place `steps` places further on a circle of `day` places, or back if `steps` is negative.
fn moved(day: u32, place: u32, steps: i64) -> u32
    requires some { 1 ≤ day }
    requires inside { place < day }
    requires steps { unsigned_abs steps ≤ 2_000_000 }
    ensures place { result ≡ moved day place steps }
    ensures inside { result < day }
{
    (i64::from(place) + steps).rem_euclid(i64::from(day)) as u32
}

impl Transport {
    /// A transport of a count at a position, in subframes.
    pub fn new(count: Count, position: u32) -> Transport
        requires { position < day_of count }
        ensures { result ≡ record { count = count; position = position } }
    {
        Transport { count, position }
    }

    /// The position of the tape, in subframes.
    pub fn position(&self) -> u32
        ensures value { result ≡ self.now.position }
        ensures inside { result < day_of self.now.count }
    {
        self.position
    }

    /// Moves as ordered, and slips, both in subframes. The day begins again at its end.
    pub fn apply(&mut self, order: i32, slip: i32)
        requires order { IsInRange order }
        requires slip { IsInRange slip }
        ensures { self.new ≡ after_move self.old order slip }
    {
        let way = i64::from(order) + i64::from(slip);
        self.position = moved(day_subframes(self.count), self.position, way);
    }
}
