//! A cell that has its place in the sound, and whether it jumps. Read next: `waiting`.
ghost use Rattle.std.specs.Prelude.{◌≡◌, ◌<◌, ◌≤◌, true, false};
ghost use Rattle.cell_path.specs.Decided.{is_jump, jumps, same_sign};

use crate::cell::{Cell, Sign, Way};
use crate::lengths::length_at;

/// A cell, and where in the sound it ends.
#[derive(Clone, Copy)]
pub struct Placed {
    /// In steps from the beginning of the sound.
    pub end: u64,
    pub cell: Cell,
}

/// A cell that is decided.
#[derive(Clone, Copy)]
pub struct Decided {
    pub placed: Placed,
    /// It does not begin where the cell before it ended.
    pub jumps: bool,
}

/// Whether two signs are the same.
fn same_sign(sign: Sign, other: Sign) -> bool
    ensures { result ≡ same_sign sign other }
{
    match (sign, other) {
        (Sign::Plus, Sign::Plus) | (Sign::Minus, Sign::Minus) => true,
        (Sign::Plus, Sign::Minus) | (Sign::Minus, Sign::Plus) => false,
    }
}

/// Whether this way is a jump.
fn is_jump(way: Way) -> bool
    ensures { result ≡ is_jump way }
{
    match way {
        Way::Jump => true,
        Way::Same | Way::Shorter | Way::Longer => false,
    }
}

/// Whether a cell jumps, behind the one that was decided before it.
pub(crate) fn jumps(before: Option<Placed>, placed: Placed) -> bool
    requires place { placed.cell.place < 45 }
    ensures { result ≡ jumps before placed }
{
    let Some(before) = before else {
        return true;
    };
    let length = length_at(placed.cell.place) as u64;
    let begin = placed.end.saturating_sub(length);
    let sign = placed.cell.bit.sign_before(placed.cell.sign);
    is_jump(placed.cell.way)
        || begin.abs_diff(before.end) > length / 4
        || !same_sign(before.cell.sign, sign)
}
