//! From the rows of a field, as they come, to its lines.
ghost use Rattle.std.specs.Prelude.{◌≡◌, ◌++◌, ◌∷◌, [], List, ℕ, length, take, Option, IfNone, IfSome};
ghost use Rattle.luma_row.specs.declared.row.CodeRow.{CodeRow};
ghost use Rattle.luma_field.specs.KeptReader.{IsLooked, StandsFor};
ghost use Rattle.luma_field.specs.Raster.{size_of};
ghost use Rattle.luma_field.specs.Rows.{found_from, Says, SaysLines};

use crate::field::FieldRows;
use crate::lines::Lines;
use crate::raster::Raster;
use luma_row::RowReader;
use std::marker::Model;

/// Reads fields row by row, and keeps no row of them.
#[derive(Drop)]
pub struct PixelReader {
    raster: Raster,
    reader: RowReader,
    number: u32,
    found: FieldRows,
}

impl Model for PixelReader {
    ghost use Rattle.luma_field.specs.KeptReader.{reading_of, FieldReading, IsInField};

    ghost Value = { FieldReading };

    ghost view = { λ s. reading_of s.raster s.number s.found };

    ghost invariant = { λ s. IsInField (reading_of s.raster s.number s.found) };
}

impl PixelReader {
    /// Before the first row of a field.
    pub fn new(raster: &Raster) -> PixelReader
        ensures raster { result.raster ≡ raster.now }
        ensures stands { StandsFor result [] }
    {
        let _width = raster.width();
        PixelReader {
            raster: *raster,
            reader: RowReader::new(),
            number: 0,
            found: FieldRows::new(),
        }
    }

    /// Takes the next row, a byte a pixel. With the last one of a field it gives the lines of that field.
    pub fn take(&mut self, row: &[u8]) -> Option<Lines>
        requires { length row.now ≡ self.old.raster.width }
        ensures raster { self.new.raster ≡ self.old.raster }
        ensures part { IfNone result ((part : List ℕ) → StandsFor self.old part
            → StandsFor self.new (part ++ row.now)) }
        ensures whole { IfSome result (λ lines. (part : List ℕ) → StandsFor self.old part
            → (length (part ++ row.now) ≡ size_of self.old.raster)
            × SaysLines self.old.raster (part ++ row.now) lines.items
            × StandsFor self.new []) }
    {
        self.look(row);
        let number = self.number + 1;
        if number < self.raster.height() {
            self.number = number;
            return None;
        }
        let lines = self.found.lines(self.raster.width());
        self.number = 0;
        self.found = FieldRows::new();
        Some(lines)
    }

    /// Reads the row where it is looked at, and keeps the code that it carries.
    fn look(&mut self, row: &[u8])
        requires { length row.now ≡ self.old.raster.width }
        ensures same { self.new ≡ record self.old { found = self.new.found } }
        ensures looked { IsLooked self.old.raster self.old.number → (say : Option CodeRow) × Says row.now say
            × (self.new.found ≡ take 20 (self.old.found ++ found_from self.old.number (say ∷ []))) }
        ensures passed { ¬ IsLooked self.old.raster self.old.number → self.new.found ≡ self.old.found }
    {
        let _width = self.raster.width();
        let first = self.raster.first();
        if self.number < first || first + self.raster.rows() <= self.number {
            return;
        }
        if let Some(code) = self.reader.read(row) {
            self.found.keep(self.number, &code);
        }
    }
}
