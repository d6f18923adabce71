//! The cells that are decided and not given yet.
ghost use Rattle.std.specs.Prelude.{◌≡◌, ◌<◌, ◌≤◌, [], ◌∷◌, ◌++◌, length, IfSome};
ghost use Rattle.cell_path.specs.Decided.{end_behind, TakesEarliest};

use crate::cell::{Bit, Cell, Sign, Way};
use crate::placed::Placed;
use std::marker::Model;

/// How many cells can be decided at once: if a sound ends before its first decision, of 2,048 steps,
/// with a cell in four steps.
pub const ROOM: usize = 512;

/// Cells that are decided, the latest first.
#[derive(Drop)]
pub(crate) struct Waiting {
    cells: [Placed; ROOM],
    count: usize,
}

impl Model for Waiting {
    ghost use Rattle.std.specs.Prelude.{◌≡◌, ◌<◌, ◌≤◌, List, length, take};
    ghost use Rattle.std.specs.List.{All};
    ghost use Rattle.cell_path.specs.declared.placed.Placed.{Placed};

    ghost Value = { List Placed };

    ghost view = { λ s. take s.count s.cells };

    ghost invariant = { λ s. (length s.cells ≡ 512) × (s.count ≤ 512)
        × All (λ placed. placed.cell.place < 45) s.cells };
}

impl Waiting {
    /// None.
    pub(crate) fn new() -> Waiting
        ensures { result ≡ [] }
    {
        let none = Placed {
            end: 0,
            cell: Cell {
                place: 0,
                bit: Bit::Zero,
                sign: Sign::Plus,
                way: Way::Jump,
            },
        };
        Waiting {
            cells: [none; ROOM],
            count: 0,
        }
    }

    /// Takes one that is earlier than all.
    pub(crate) fn push(&mut self, placed: Placed)
        requires room { length self.old < 512 }
        requires place { placed.cell.place < 45 }
        ensures { self.new ≡ self.old ++ placed ∷ [] }
    {
        self.cells[self.count] = placed;
        self.count += 1;
    }

    /// Gives the earliest.
    pub(crate) fn pop(&mut self) -> Option<Placed>
        ensures takes { TakesEarliest self.old self.new result }
        ensures place { IfSome result (λ placed. placed.cell.place < 45) }
    {
        if self.count == 0 {
            return None;
        }
        self.count -= 1;
        Some(self.cells[self.count])
    }

    /// Where the latest ends, or where those before them did.
    pub(crate) fn end_behind(&self, done: u64) -> u64
        ensures { result ≡ end_behind done self.now }
    {
        if self.count == 0 {
            return done;
        }
        self.cells[0].end
    }
}
