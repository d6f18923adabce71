//! What is kept of a step to follow a best path back from it. Read next: `marks`.
ghost use Rattle.std.specs.Prelude.{◌≡◌, ℕ, ◌*◌, ◌/◌, ◌%◌, ◌<◌, [], replicate};
ghost use Rattle.cell_path.specs.Marks.{bit_from, marked_bit, marked_way, sign_from, way_from};

use crate::cell::{Bit, Sign, Way};
use crate::lengths::PLACES;

/// The marks of one step: for each length a byte, and how the best path of all ends.
#[derive(Clone, Copy)]
pub struct StepMarks {
    pub marks: [u8; PLACES],
    pub best_place: u8,
    pub best_sign: Sign,
}

/// The marks of four steps in a row.
#[derive(Clone, Copy)]
pub struct FourMarks {
    pub first: StepMarks,
    pub second: StepMarks,
    pub third: StepMarks,
    pub fourth: StepMarks,
}

/// The marks of a step, of which no length has been marked yet, with the code of the end of the best path of all.
#[inline(always)]
pub(crate) fn no_marks_yet(best: u32) -> StepMarks
    requires { best < 90 }
    ensures { result ≡ record { marks = replicate 45 0; best_place = best / 2; best_sign = sign_from (best % 2) } }
{
    let best_sign = match best % 2 {
        0 => Sign::Plus,
        _ => Sign::Minus,
    };
    StepMarks {
        marks: [0; PLACES],
        best_place: (best / 2) as u8,
        best_sign,
    }
}

/// The mark of a length: the codes of its two latest bits, and of its two ways.
#[inline(always)]
pub(crate) fn mark_of(plus: u32, minus: u32, plus_way: u32, minus_way: u32) -> u32
    requires plus { plus < 2 }
    requires minus { minus < 2 }
    requires plus_way { plus_way < 4 }
    requires minus_way { minus_way < 4 }
    ensures plus { marked_bit result Sign.Plus ≡ bit_from plus }
    ensures minus { marked_bit result Sign.Minus ≡ bit_from minus }
    ensures plus_way { marked_way result Sign.Plus ≡ way_from plus_way }
    ensures minus_way { marked_way result Sign.Minus ≡ way_from minus_way }
{
    plus + 2 * minus + 4 * plus_way + 16 * minus_way
}

/// The latest bit that a mark has for a sign.
pub(crate) fn bit_of(mark: u8, sign: Sign) -> Bit
    ensures { result ≡ marked_bit mark sign }
{
    let number = match sign {
        Sign::Plus => mark % 2,
        Sign::Minus => mark / 2 % 2,
    };
    match number {
        0 => Bit::Zero,
        _ => Bit::One,
    }
}

/// The way that a mark has for the sign before.
pub(crate) fn way_of(mark: u8, sign: Sign) -> Way
    ensures { result ≡ marked_way mark sign }
{
    let number = match sign {
        Sign::Plus => mark / 4 % 4,
        Sign::Minus => mark / 16 % 4,
    };
    match number {
        0 => Way::Same,
        1 => Way::Shorter,
        2 => Way::Longer,
        _ => Way::Jump,
    }
}
