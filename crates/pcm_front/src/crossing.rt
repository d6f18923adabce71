//! The tick of a crossing in the step to its sample. Read next: `pace`.
ghost use Rattle.std.specs.Prelude.{◌≡◌, ◌≤◌, ◌^◌, Some, pos, ◌≤ℤ◌};
ghost use Rattle.pcm_front.specs.Level.{IsSum};
ghost use Rattle.pcm_front.specs.Side.{side_of};
ghost use Rattle.pcm_front.specs.Crossing.{apart, tick_in_step, tick_to};

use crate::side::Side;

/// The tick in the step from sum `a` to sum `b` in which the sound reaches the side of `b`: from 1
/// to the fineness. Sum `a` itself may lie there already, by the lower threshold of `b`.
#[tactic(auto, using(crate::specs::SideLemmas::side_above))]
pub(crate) fn tick_to(side: Side, fineness: u32, threshold: u32, a: i32, b: i32) -> u32
    requires least { 1 ≤ fineness }
    requires most { fineness ≤ 64 }
    requires threshold { threshold ≤ 524_272 }
    requires before { IsSum a }
    requires after { IsSum b }
    requires side { side_of threshold b ≡ Some side }
    ensures value { result ≡ tick_to (Some side) fineness threshold a b }
    ensures least { 1 ≤ result }
    ensures most { result ≤ fineness }
{
    tick_in_step(fineness, threshold, side.upward(a), side.upward(b))
}

/// The tick in the step up from `a` to `b` that is the first at the threshold or above.
fn tick_in_step(fineness: u32, threshold: u32, a: i32, b: i32) -> u32
    requires least { 1 ≤ fineness }
    requires most { fineness ≤ 64 }
    requires threshold { threshold ≤ 524_272 }
    requires before { IsSum a }
    requires after { IsSum b }
    requires above { pos threshold ≤ℤ b }
    ensures value { result ≡ tick_in_step fineness threshold a b }
    ensures least { 1 ≤ result }
    ensures most { result ≤ fineness }
{
    // In whole samples it is the only one, and a quotient takes long.
    if fineness == 1 {
        return 1;
    }
    let threshold = threshold as i32;
    if threshold <= a {
        return 1;
    }
    let rise = ascent(a, threshold);
    let step = ascent(a, b);
    (fineness * rise).div_ceil(step)
}

/// How far a sum lies above another.
fn ascent(from: i32, to: i32) -> u32
    requires from { IsSum from }
    requires to { IsSum to }
    requires order { from ≤ℤ to }
    ensures value { result ≡ apart to from }
    ensures most { result ≤ 2 ^ 20 }
{
    (to - from) as u32
}
