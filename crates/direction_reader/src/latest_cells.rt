//! The cells of the stretch that is open. Read next: `latest_bits`, and with the tick `boundaries`.
ghost use Rattle.std.specs.Prelude.{◌≡◌};
ghost use Rattle.direction_reader.specs.Brings.{BringsAt};
ghost use Rattle.direction_reader.specs.Invariants.{AreBoundariesTo};
ghost use Rattle.direction_reader.specs.LatestBits.{after_bit};
ghost use Rattle.direction_reader.specs.LatestCells.{no_cells, with_boundary, AreWindowEvents, CellBrings};

use crate::boundaries::Boundaries;
use crate::brought::Brought;
use crate::candidates::window_events;
use crate::event::Events;
use crate::latest_bits::LatestBits;
use crate::window::Filling;
use std::marker::Model;
use tc_address::System;

/// The latest cells of a stretch: their bits, and the ticks at their boundaries.
#[derive(Drop)]
pub struct LatestCells {
    bits: LatestBits,
    boundaries: Boundaries,
}

impl Model for LatestCells {
    ghost use Rattle.std.specs.Prelude.{◌≡◌, length};
    ghost use Rattle.direction_reader.specs.declared.boundaries.TheConstants.{BOUNDARIES};
    ghost use Rattle.direction_reader.specs.Invariants.{latest_ticks};
    ghost use Rattle.direction_reader.specs.LatestCells.{Cells};

    ghost Value = { Cells };

    ghost view = { λ s. record { bits = s.bits; boundaries = latest_ticks s.bits s.boundaries } };

    ghost invariant = { λ s. length s.boundaries ≡ BOUNDARIES };
}

impl LatestCells {
    /// A stretch that begins at tick 0, with no cell yet.
    pub fn new() -> LatestCells
        ensures { result ≡ no_cells 0 }
    {
        let mut boundaries = Boundaries::new();
        boundaries.push(0);
        LatestCells {
            bits: LatestBits::Filling(Filling::new()),
            boundaries,
        }
    }

    /// Begins a stretch at this tick, with no cell yet.
    pub fn begin(&mut self, tick: u64)
        ensures { self.new ≡ no_cells tick }
    {
        self.bits = LatestBits::Filling(Filling::new());
        self.boundaries.push(tick);
    }

    /// Adds a cell of this bit, which ends at this tick, and returns what it brings: a candidate, if
    /// it ends a window with one.
    #[inline(always)]
    pub fn add(&mut self, tick: u64, bit: bool) -> Brought
        ensures bits { self.new.bits ≡ after_bit self.old.bits bit }
        ensures boundaries { self.new.boundaries ≡ with_boundary self.old.boundaries tick }
        ensures brings { CellBrings self.new.bits result }
    {
        self.boundaries.push(tick);
        if self.bits.add(bit) {
            Brought::Candidate
        } else {
            Brought::Nothing
        }
    }

    /// The events of the latest window, which ends at this tick.
    pub fn events(&self, system: System, tick: u64) -> Events
        requires { AreBoundariesTo tick self.now.boundaries }
        ensures events { AreWindowEvents system self.now.bits self.now.boundaries tick result }
        ensures brings { BringsAt tick result }
    {
        match self.bits {
            LatestBits::Full(full) => {
                let length = tick - self.boundaries.oldest();
                window_events(system, full.window(), tick, length)
            }
            LatestBits::Filling(_) => Events::none(),
        }
    }
}
