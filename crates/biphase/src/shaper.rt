//! Cells that are made: their lengths move step by step.
ghost use Rattle.std.specs.Prelude.{◌≡◌, ◌∷◌, ◌↔◌, List, Bool, IsTrue, IfOk, IfErr};
ghost use Rattle.biphase.specs.Shape.{cell_with, shape_with, shaped, IsFirstFault, IsShape, IsShaped};

use crate::cell::Cell;
use std::marker::Model;

/// The least length of a cell that is made, in ticks. The halves of a one of this length may differ
/// by one.
pub const MIN_SHAPED: u32 = 16;

/// The greatest length of a cell that is made, in ticks.
pub const MAX_SHAPED: u32 = 8_388_607;

/// Why lengths are no shape, in the order of these variants.
#[derive(Clone, Copy)]
pub enum ShapeFault {
    /// The first or the last length is out of range.
    Cell,
    /// Eight steps are more than the lesser of the two lengths.
    Ramp,
}

/// Makes cells whose length begins with one length and moves by a step a cell towards another.
#[derive(Clone, Copy)]
pub struct Shaper {
    length: u32,
    to: u32,
    step: u32,
}

impl Model for Shaper {
    ghost use Rattle.biphase.specs.Shape.{Shape, IsShape};

    ghost Value = { Shape };

    ghost view = { λ s. record { from = s.length; to = s.to; step = s.step } };

    ghost invariant = { λ s. IsShape (record { from = s.length; to = s.to; step = s.step }) };

    ghost inverse = { λ shape. record { length = shape.from; to = shape.to; step = shape.step } };
}

impl Shaper {
    /// A shaper of this shape, all numbers in ticks: cells of the length `from`, and then each by
    /// `step` nearer to the length `to`.
    pub fn new(from: u32, to: u32, step: u32) -> Result<Shaper, ShapeFault>
        ensures shape { let shape = shape_with from to step in
            IfOk result (λ shaper. (shaper ≡ shape) × IsShape shape) }
        ensures only { let shape = shape_with from to step in IsShape shape → result ≡ Ok shape }
        ensures refuses { let shape = shape_with from to step in IfErr result (λ fault. IsFirstFault fault shape) }
    {
        if !is_shaped(from) || !is_shaped(to) {
            return Err(ShapeFault::Cell);
        }
        if 8 * u64::from(step) > u64::from(from.min(to)) {
            return Err(ShapeFault::Ramp);
        }
        Ok(Shaper {
            length: from,
            to,
            step,
        })
    }

    /// The next cell, with this bit. What the shaper is seen as is the shape of the cells to come.
    pub fn next_cell(&mut self, bit: bool) -> Cell
        ensures cells { (bits : List Bool) → shaped self.old (bit ∷ bits) ≡ result ∷ shaped self.new bits }
        ensures shape { IsShape self.new }
    {
        let length = self.length;
        self.length = (length - self.step).max(self.to.min(length + self.step));
        cell_with(length, bit)
    }
}

/// A cell of `length` ticks with this bit.
fn cell_with(length: u32, bit: bool) -> Cell
    ensures { result ≡ cell_with length bit }
{
    if bit {
        Cell::One(length / 2, length - length / 2)
    } else {
        Cell::Zero(length)
    }
}

/// Whether a cell of `ticks` ticks can be made.
fn is_shaped(ticks: u32) -> bool
    ensures { IsTrue result ↔ IsShaped ticks }
{
    MIN_SHAPED <= ticks && ticks <= MAX_SHAPED
}
