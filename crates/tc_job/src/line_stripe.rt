//! What the words of `vitc-make` say: which labels to write to lines, and how long a line lasts.
ghost use Rattle.std.specs.Prelude.{◌≡◌};
ghost use Rattle.tc_job.specs.LineStripe.{IsLineStripe, LineStriping, line_stripe_of};

use std::marker::Model;
use tc_address::Label;

/// A stripe of vertical interval time code: its labels, and its lines.
#[derive(Clone, Copy)]
pub struct LineStripe {
    label: Label,
    frames: u32,
    length: u32,
}

impl Model for LineStripe {
    ghost use Rattle.tc_job.specs.LineStripe.{IsLineStripe, LineStriping, line_stripe_of};

    ghost Value = { LineStriping };

    ghost view = { λ s. record { label = s.label; frames = s.frames; length = s.length } };

    ghost invariant = { λ s. IsLineStripe (line_stripe_of s.label s.frames s.length) };

    ghost inverse = { λ s. record { label = s.label; frames = s.frames; length = s.length } };
}

impl LineStripe {
    /// This many frames, from this label on, in lines that last this many ticks.
    pub fn new(label: Label, frames: u32, length: u32) -> LineStripe
        requires { IsLineStripe (line_stripe_of label frames length) }
        ensures { result ≡ line_stripe_of label frames length }
    {
        LineStripe {
            label,
            frames,
            length,
        }
    }

    /// The label of the first frame, at 25 or 30 frames.
    pub fn label(&self) -> Label
        ensures value { result ≡ self.now.label }
        ensures valid { IsLineStripe self.now }
    {
        self.label
    }

    /// How many frames, from 1 to `MAX_FRAMES`.
    pub fn frames(&self) -> u32
        ensures value { result ≡ self.now.frames }
        ensures valid { IsLineStripe self.now }
    {
        self.frames
    }

    /// How long a line lasts, from 460 to 65,535 ticks.
    pub fn length(&self) -> u32
        ensures value { result ≡ self.now.length }
        ensures valid { IsLineStripe self.now }
    {
        self.length
    }
}
