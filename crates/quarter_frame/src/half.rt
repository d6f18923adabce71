//! The two halves of an address in quarter frames. Read next: `message`.
ghost use Rattle.std.specs.Prelude.{◌≡◌, ◌≤◌, ◌+◌, ◌-◌, [], ◌∷◌};
ghost use Rattle.quarter_frame.specs.Runs.{four_of, is_even, quarters};
ghost use Rattle.quarter_frame.specs.StandsFor.{other_half, position_of};

use crate::message::quarter;
use tc_address::{Direction, Label, advance};

/// Which of the two frames that carry an address a frame is: the first at the even positions of a run,
/// the second at the odd ones.
#[derive(Clone, Copy)]
pub enum Half {
    First,
    Second,
}

impl Half {
    /// The half of the next frame.
    pub fn other(self) -> Half
        ensures { result ≡ other_half self }
    {
        match self {
            Half::First => Half::Second,
            Half::Second => Half::First,
        }
    }
}

/// Four quarter frames with rising pieces.
fn rising(label: &Label, first: u32) -> [u8; 8]
    requires { first ≤ 4 }
    ensures { result ≡ quarters label.now (first ∷ (first + 1) ∷ (first + 2) ∷ (first + 3) ∷ []) }
{
    let [a, b] = quarter(label, first);
    let [c, d] = quarter(label, first + 1);
    let [e, f] = quarter(label, first + 2);
    let [g, h] = quarter(label, first + 3);
    [a, b, c, d, e, f, g, h]
}

/// Four quarter frames with falling pieces.
fn falling(label: &Label, first: u32) -> [u8; 8]
    requires least { 3 ≤ first }
    requires most { first ≤ 7 }
    ensures { result ≡ quarters label.now (first ∷ (first - 1) ∷ (first - 2) ∷ (first - 3) ∷ []) }
{
    let [a, b] = quarter(label, first);
    let [c, d] = quarter(label, first - 1);
    let [e, f] = quarter(label, first - 2);
    let [g, h] = quarter(label, first - 3);
    [a, b, c, d, e, f, g, h]
}

/// The four quarter frames of a frame. Both halves carry the earlier label of the two.
pub fn four_quarters(label: &Label, direction: Direction, half: Half) -> [u8; 8]
    ensures { result ≡ four_of label.now direction (is_even (position_of half)) }
{
    match (direction, half) {
        (Direction::Forward, Half::First) => rising(label, 0),
        (Direction::Forward, Half::Second) => rising(&advance(label, -1), 4),
        (Direction::Backward, Half::First) => falling(&advance(label, -1), 7),
        (Direction::Backward, Half::Second) => falling(label, 3),
    }
}
