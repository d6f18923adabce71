//! What the words of `ltc-make` say: which labels to write to a tape, and how long its cells last.
ghost use Rattle.std.specs.Prelude.{◌≡◌};
ghost use Rattle.tc_job.specs.Stripe.{IsStripe, Striping, stripe_of};

use biphase::Shaper;
use std::marker::Model;
use tc_address::{Direction, Label};

/// The greatest number of frames that one run makes.
pub const MAX_FRAMES: u32 = 1_000_000;

/// A stripe of linear time code: its labels, and its cells.
#[derive(Clone, Copy)]
pub struct Stripe {
    direction: Direction,
    label: Label,
    frames: u32,
    shaper: Shaper,
    tick_rate: u32,
}

impl Model for Stripe {
    ghost use Rattle.tc_job.specs.Stripe.{IsStripe, Striping, stripe_of};

    ghost Value = { Striping };

    ghost view = { λ s. record {
      direction = s.direction;
      label = s.label;
      frames = s.frames;
      shape = s.shaper;
      tick_rate = s.tick_rate;
    } };

    ghost invariant = { λ s. IsStripe (stripe_of s.direction s.label s.frames s.shaper s.tick_rate) };

    ghost inverse = { λ s. record {
      direction = s.direction;
      label = s.label;
      frames = s.frames;
      shaper = s.shape;
      tick_rate = s.tick_rate;
    } };
}

impl Stripe {
    /// So many frames, from this label on in this direction, with the cells of the shaper, whose
    /// lengths are in ticks, at this tick rate.
    pub fn new(
        direction: Direction,
        label: Label,
        frames: u32,
        shaper: Shaper,
        tick_rate: u32,
    ) -> Stripe
        requires { IsStripe (stripe_of direction label frames shaper tick_rate) }
        ensures { result ≡ stripe_of direction label frames shaper tick_rate }
    {
        Stripe {
            direction,
            label,
            frames,
            shaper,
            tick_rate,
        }
    }

    /// The way in which the tape is to run when it is read.
    pub fn direction(&self) -> Direction
        ensures { result ≡ self.now.direction }
    {
        self.direction
    }

    /// The label of the first frame.
    pub fn label(&self) -> Label
        ensures value { result ≡ self.now.label }
        ensures valid { IsStripe self.now }
    {
        self.label
    }

    /// How many frames, from 1 to `MAX_FRAMES`.
    pub fn frames(&self) -> u32
        ensures value { result ≡ self.now.frames }
        ensures valid { IsStripe self.now }
    {
        self.frames
    }

    /// What makes the cells.
    pub fn shaper(&self) -> Shaper
        ensures value { result ≡ self.now.shape }
        ensures valid { IsStripe self.now }
    {
        self.shaper
    }

    /// Ticks of the recorder's clock in a second, from 1 to `MAX_TICK_RATE` of `limits`.
    pub fn tick_rate(&self) -> u32
        ensures value { result ≡ self.now.tick_rate }
        ensures valid { IsStripe self.now }
    {
        self.tick_rate
    }
}
