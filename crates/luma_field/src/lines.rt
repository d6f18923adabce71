//! The lines that rows say, one after another, up to twenty.
ghost use Rattle.std.specs.Prelude.{◌≡◌, ◌^◌, ◌≤◌, ◌++◌, take};
ghost use Rattle.std.specs.List.{flat_map};
ghost use Rattle.luma_row.specs.KeptLevels.{AreLevels};
ghost use Rattle.luma_row.specs.declared.width.TheConstants.{MAX_WIDTH};
ghost use Rattle.luma_field.specs.Field.{line_of, line_of_pair, line_of_row, line_of_two, pairs};
ghost use Rattle.luma_field.specs.KeptField.{AreFound};

use crate::found::FoundRow;
use arrayvec::ArrayVec;
use luma_row::laws::a_row_is_narrower_than_two;
use luma_row::{Levels, MAX_WIDTH};

/// How many rows of a field are kept, and how many lines it has at most.
pub(crate) const MOST: usize = 20;

/// The lines of a field: of each the 90 bits, bit 0 the lowest.
pub type Lines = ArrayVec<u128, MOST>;

/// One more line, where the levels say their bits and there is room.
fn add(lines: &mut Lines, levels: &Levels)
    requires { AreLevels (2 ^ 29) (2 ^ 36) levels.now }
    ensures { lines.new.items ≡ take 20 (lines.old.items ++ line_of levels.now) }
{
    if lines.is_full() {
        return;
    }
    if let Some(bits) = levels.bits() {
        lines.push(bits);
    }
}

/// The lines of rows.
pub(crate) fn add_rows(lines: &mut Lines, rows: &[FoundRow])
    requires { AreFound rows.now }
    ensures { lines.new.items ≡ take 20 (lines.old.items ++ flat_map line_of_row rows.now) }
{
    if lines.is_full() {
        return;
    }
    a_row_is_narrower_than_two();
    for at in 0..rows.len() {
        add(lines, &rows[at].row.levels);
    }
}

/// The line of two rows.
fn add_two(lines: &mut Lines, a: &FoundRow, b: &FoundRow, width: u32)
    requires first { AreLevels (2 ^ 28) (2 ^ 35) a.now.row.levels }
    requires second { AreLevels (2 ^ 28) (2 ^ 35) b.now.row.levels }
    requires width { width ≤ MAX_WIDTH }
    ensures { lines.new.items ≡ take 20 (lines.old.items ++ line_of_two width a.now b.now) }
{
    if lines.is_full() {
        return;
    }
    if a.belongs_to(b, width) {
        add(lines, &a.row.levels.with(&b.row.levels));
    }
}

/// The lines of a row with each of those behind it.
fn add_first(lines: &mut Lines, first: &FoundRow, behind: &[FoundRow], width: u32)
    requires first { AreLevels (2 ^ 28) (2 ^ 35) first.now.row.levels }
    requires behind { AreFound behind.now }
    requires width { width ≤ MAX_WIDTH }
    ensures { lines.new.items ≡ take 20 (lines.old.items ++ flat_map (line_of_two width first.now) behind.now) }
{
    if lines.is_full() {
        return;
    }
    for at in 0..behind.len() {
        add_two(lines, first, &behind[at], width);
    }
}

/// The lines of each two rows.
pub(crate) fn add_pairs(lines: &mut Lines, rows: &[FoundRow], width: u32)
    requires rows { AreFound rows.now }
    requires width { width ≤ MAX_WIDTH }
    ensures { lines.new.items ≡ take 20 (lines.old.items ++ flat_map (line_of_pair width) (pairs rows.now)) }
{
    if lines.is_full() {
        return;
    }
    for at in 0..rows.len() {
        add_first(lines, &rows[at], &rows[at + 1..], width);
    }
}
