//! The rows of a field that carry code, and the lines that they give.
ghost use Rattle.std.specs.Prelude.{◌≡◌, ◌^◌, ◌≤◌, [], ◌∷◌, ◌++◌, length, take};
ghost use Rattle.luma_row.specs.KeptLevels.{AreLevels};
ghost use Rattle.luma_row.specs.declared.width.TheConstants.{MAX_WIDTH};
ghost use Rattle.luma_field.specs.Field.{lines_of};

use crate::found::FoundRow;
use crate::lines::{Lines, MOST, add_pairs, add_rows};
use luma_row::{CodeRow, MAX_WIDTH};
use std::marker::Model;

/// The first 20 rows of a field that carry code.
#[derive(Drop)]
pub struct FieldRows {
    found: [FoundRow; MOST],
    count: usize,
}

impl Model for FieldRows {
    ghost use Rattle.std.specs.Prelude.{◌≤◌, List, take};
    ghost use Rattle.luma_field.specs.declared.found.FoundRow.{FoundRow};
    ghost use Rattle.luma_field.specs.KeptField.{AreFound};

    ghost Value = { List FoundRow };

    ghost view = { λ s. take s.count s.found };

    ghost invariant = { λ s. (s.count ≤ 20) × AreFound (take s.count s.found) };
}

impl FieldRows {
    /// Before the first row.
    pub fn new() -> FieldRows
        ensures { result ≡ [] }
    {
        FieldRows {
            found: [FoundRow::none(); MOST],
            count: 0,
        }
    }

    /// Keeps a row that carries code.
    pub fn keep(&mut self, number: u32, row: &CodeRow)
        requires { AreLevels (2 ^ 28) (2 ^ 35) row.now.levels }
        ensures { self.new ≡ take 20 (self.old ++ record { number = number; row = row.now } ∷ []) }
    {
        if self.count < MOST {
            self.found[self.count] = FoundRow { number, row: *row };
            self.count += 1;
        }
    }

    /// The lines, where the rows are so wide.
    pub fn lines(&self, width: u32) -> Lines
        requires { width ≤ MAX_WIDTH }
        ensures lines { result.items ≡ lines_of width self.now }
        ensures few { length result.items ≤ 20 }
    {
        let mut lines = Lines::new();
        let rows = &self.found[..self.count];
        add_rows(&mut lines, rows);
        add_pairs(&mut lines, rows, width);
        lines
    }
}
