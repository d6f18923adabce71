//! Cells, and how they follow one another. Read next: `end`.
ghost use Rattle.std.specs.Prelude.{◌≡◌, ◌^◌};
ghost use Rattle.cell_path.specs.Path.{opposite, sign_before, signed};
ghost use Rattle.cell_path.specs.Within.{IsWithin};

/// One step of the sound.
#[derive(Clone, Copy)]
pub struct Step {
    /// The sound there.
    pub sound: i32,
    /// The mean size of the sound so far, by which costs are measured.
    pub level: u32,
}

/// The side on which a cell ends.
#[derive(Clone, Copy)]
pub enum Sign {
    Plus,
    Minus,
}

/// A zero has one sign, and a one two halves of different signs.
#[derive(Clone, Copy)]
pub enum Bit {
    Zero,
    One,
}

/// How a cell follows the one before it.
#[derive(Clone, Copy)]
pub enum Way {
    /// It is as long.
    Same,
    /// The one before has the next length below.
    Shorter,
    /// The one before has the next length above.
    Longer,
    /// Nothing joins them. The first cell of a path comes after a jump too.
    Jump,
}

/// A cell of a path.
#[derive(Clone, Copy)]
pub struct Cell {
    /// The place of its length in the list of lengths.
    pub place: usize,
    pub bit: Bit,
    /// The sign at its end.
    pub sign: Sign,
    pub way: Way,
}

impl Sign {
    pub(crate) fn opposite(self) -> Sign
        ensures { result ≡ opposite self }
    {
        match self {
            Sign::Plus => Sign::Minus,
            Sign::Minus => Sign::Plus,
        }
    }

    /// A number with this sign.
    pub(crate) fn of(self, number: i64) -> i64
        requires { IsWithin (2 ^ 62) number }
        ensures { result ≡ signed self number }
    {
        match self {
            Sign::Plus => number,
            Sign::Minus => -number,
        }
    }
}

impl Bit {
    /// The sign with which the cell before has to end.
    pub(crate) fn sign_before(self, sign: Sign) -> Sign
        ensures { result ≡ sign_before self sign }
    {
        match self {
            Bit::Zero => sign.opposite(),
            Bit::One => sign,
        }
    }
}
