//! A word as the flywheel hears it. Read next: `wheel`.
ghost use Rattle.std.specs.Prelude.{◌≡◌, ◌<◌, ◌≤◌, ◌^◌, ◌+◌};
ghost use Rattle.tc_address.specs.Label.{IsLabel};
ghost use Rattle.flywheel.specs.Frames.{is_next, label_after, tick_after};
ghost use Rattle.flywheel.specs.Wheel.{due_tick, IsInRange};

use tc_address::{Direction, Label, advance};

/// A word of linear time code that was heard.
#[derive(Clone, Copy)]
pub struct HeardWord {
    pub label: Label,
    /// The way in which the tape moved.
    pub direction: Direction,
    /// The tick at which the word ended.
    pub tick: u64,
    /// How many ticks the word lasted: the length of a frame.
    pub length: u64,
}

impl HeardWord {
    /// The label `steps` steps further in the word's direction.
    pub(crate) fn label_after(&self, steps: u32) -> Label
        ensures { result ≡ label_after self.now steps }
    {
        let steps = i64::from(steps);
        match self.direction {
            Direction::Forward => advance(&self.label, steps),
            Direction::Backward => advance(&self.label, -steps),
        }
    }

    /// The tick at which the frame of a step would have been heard.
    pub(crate) fn tick_after(&self, steps: u32) -> u64
        requires range { IsInRange self.now }
        requires steps { steps ≤ 256 }
        ensures value { result ≡ tick_after self.now steps }
        ensures most { result < 2 ^ 60 + 2 ^ 41 }
    {
        self.tick + u64::from(steps) * self.length
    }

    /// The first tick at which the frame of a step is due, half a length after its own.
    pub(crate) fn due_tick(&self, steps: u32) -> u64
        requires range { IsInRange self.now }
        requires steps { steps ≤ 256 }
        ensures { result ≡ due_tick self.now steps }
    {
        self.tick_after(steps) + self.length.div_ceil(2)
    }

    /// Whether another word is the one to which this one leads after `steps` steps: it has its direction, and
    /// the label that is so many steps further in that direction.
    pub fn leads_to(&self, steps: u32, next: &HeardWord) -> bool
        ensures { result ≡ is_next self.now steps next.now }
    {
        self.direction == next.direction && self.label_after(steps) == next.label
    }
}
