//! A maker of cells as it lies in memory of the caller's. Read next: `code_maker/src/bits.rt`.
use biphase::Shaper;
use std::marker::Model;

/// A maker of cells, kept where the caller says.
#[derive(Drop)]
pub struct KeptMaker {
    pub(crate) shaper: Shaper,
}

impl Model for KeptMaker {
    ghost use Rattle.biphase.specs.Shape.{Shape};

    ghost Value = { Shape };

    ghost view = { λ s. s.shaper };
}
