//! The tolerance profiles, and all their numbers. Read next: `cell`.
ghost use Rattle.std.specs.Prelude.{◌≡◌, ◌*◌, ◌<◌, ◌^◌, ◌↔◌, IsTrue};
ghost use Rattle.biphase.specs.Profile.{equal_of, unequal_of, IsAtLeast, IsAtMost, IsWithin};

// The code tests at each interval which one it is. The compiler tests the first variant first if another
// one's arm comes first in a `match`.
/// How much the cells of a recording may differ.
#[derive(Clone, Copy)]
pub enum Profile {
    /// A cell lasts within one eighth of the cell before, and halves differ by at most one sixteenth
    /// of their cell.
    Normal,
    /// For worn recordings: a cell lasts within one sixth of the cell before, and halves differ by at
    /// most one twelfth of their cell.
    Worn,
    /// For hissy and dull recordings: a cell is compared with the mean of the latest four.
    Rough,
}

/// A part of a whole: 2 of 3 is two thirds.
#[derive(Clone, Copy)]
pub struct Ratio {
    pub part: u8,
    pub whole: u8,
}

/// The numbers of a tolerance that compares with the last cell.
#[derive(Clone, Copy)]
pub struct Tolerance {
    /// Two neighbouring cells differ by at most the first of them, divided by this number.
    pub cell: u8,
    /// The two halves of a one differ by at most the one, divided by this number.
    pub half: u8,
    /// Of two equal intervals, the lesser is at least this part of the greater.
    pub equal: Ratio,
    /// Of two unequal intervals, the lesser is at least this part of the greater.
    pub unequal: Ratio,
    /// A first half is at least this part of the cell before.
    pub least_half: Ratio,
    /// A first half is at most this part of the cell before.
    pub greatest_half: Ratio,
}

/// The numbers of a tolerance that compares with the latest four cells, the sum of whose lengths is
/// four times their mean.
#[derive(Clone, Copy)]
pub struct SumTolerance {
    /// A cell is at least this part of the sum.
    pub least_cell: Ratio,
    /// A cell is at most this part of the sum.
    pub greatest_cell: Ratio,
    /// A half is at least this part of the sum.
    pub least_half: Ratio,
    /// A half is at most this part of the sum.
    pub greatest_half: Ratio,
    /// Of two equal intervals, the lesser is at least this part of the greater.
    pub equal: Ratio,
    /// Of two unequal intervals, the lesser is at least this part of the greater.
    pub unequal: Ratio,
}

/// The numbers of `Profile::Normal`.
pub const NORMAL: Tolerance = Tolerance {
    cell: 8,
    half: 16,
    equal: Ratio { part: 2, whole: 3 },
    unequal: Ratio { part: 2, whole: 5 },
    least_half: Ratio { part: 3, whole: 8 },
    greatest_half: Ratio { part: 5, whole: 8 },
};

/// The numbers of `Profile::Worn`.
pub const WORN: Tolerance = Tolerance {
    cell: 6,
    half: 12,
    equal: Ratio { part: 2, whole: 3 },
    unequal: Ratio { part: 3, whole: 8 },
    least_half: Ratio { part: 3, whole: 8 },
    greatest_half: Ratio { part: 2, whole: 3 },
};

/// The numbers of `Profile::Rough`.
pub const ROUGH: SumTolerance = SumTolerance {
    least_cell: Ratio { part: 3, whole: 16 },
    greatest_cell: Ratio { part: 5, whole: 16 },
    least_half: Ratio { part: 3, whole: 40 },
    greatest_half: Ratio { part: 7, whole: 40 },
    equal: Ratio { part: 2, whole: 3 },
    unequal: Ratio { part: 1, whole: 3 },
};

impl Profile {
    /// Of two equal intervals, the lesser is at least this part of the greater.
    pub(crate) fn equal(self) -> Ratio
        ensures { result ≡ equal_of self }
    {
        match self {
            Profile::Normal => NORMAL.equal,
            Profile::Worn => WORN.equal,
            Profile::Rough => ROUGH.equal,
        }
    }

    /// Of two unequal intervals, the lesser is at least this part of the greater.
    pub(crate) fn unequal(self) -> Ratio
        ensures { result ≡ unequal_of self }
    {
        match self {
            Profile::Normal => NORMAL.unequal,
            Profile::Worn => WORN.unequal,
            Profile::Rough => ROUGH.unequal,
        }
    }
}

fn times(number: u8, ticks: u64) -> u64
    requires { ticks < 2 ^ 40 }
    ensures { result ≡ number * ticks }
{
    u64::from(number) * ticks
}

/// Whether `a` ticks are at least this part of `b` ticks.
pub(crate) fn is_at_least(ratio: Ratio, a: u64, b: u64) -> bool
    requires first { a < 2 ^ 40 }
    requires second { b < 2 ^ 40 }
    ensures { IsTrue result ↔ IsAtLeast ratio a b }
{
    times(ratio.part, b) <= times(ratio.whole, a)
}

/// Whether `a` ticks are at most this part of `b` ticks.
pub(crate) fn is_at_most(ratio: Ratio, a: u64, b: u64) -> bool
    requires first { a < 2 ^ 40 }
    requires second { b < 2 ^ 40 }
    ensures { IsTrue result ↔ IsAtMost ratio a b }
{
    times(ratio.whole, a) <= times(ratio.part, b)
}

/// Whether `number` times the difference of `a` and `b` is at most `length`, all in ticks. What is
/// below 0 wraps to more than any length, so one comparison tests both ends.
#[tactic(auto, using(crate::proofs::EitherWay::times_apart))]
pub(crate) fn is_within(number: u8, a: u64, b: u64, length: u64) -> bool
    requires first { a < 2 ^ 40 }
    requires second { b < 2 ^ 40 }
    requires third { length < 2 ^ 40 }
    ensures { IsTrue result ↔ IsWithin number a b length }
{
    let (first, second) = (times(number, a), times(number, b));
    (first + length).wrapping_sub(second) <= 2 * length
}
