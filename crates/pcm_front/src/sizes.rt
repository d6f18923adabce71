//! The sizes of some samples, many at once. Read next: `side`.
ghost use Rattle.std.specs.Prelude.{◌≡◌, ◌+◌, ◌≤◌, ◌<◌, ◌^◌, ◌∷◌, [], length};
ghost use Rattle.pcm_front.specs.Sizes.{size_at};

use crate::samples::Samples;
use std::simd::prelude::*;

/// How many sizes are taken at once.
pub(crate) const SIZES: usize = 4;

/// So much higher stand sizes, and the peak that they are compared with.
pub(crate) const RAISE: u32 = 1_023;

/// The sizes of the `SIZES` samples from a place on, each `RAISE` higher.
#[inline(always)]
pub(crate) fn sizes_at<S: Samples>(samples: &S, at: usize) -> [u16; SIZES]
    requires within { at + SIZES ≤ length (S.list samples.now) }
    requires room { at + SIZES < 2 ^ 64 }
    ensures { result ≡ size_at (S.list samples.now) at ∷ size_at (S.list samples.now) (at + 1)
        ∷ size_at (S.list samples.now) (at + 2) ∷ size_at (S.list samples.now) (at + 3) ∷ [] }
{
    let lanes = i16x4::from_array([
        samples.at(at),
        samples.at(at + 1),
        samples.at(at + 2),
        samples.at(at + 3),
    ]);
    let raised = (lanes.abs() + i16x4::splat(RAISE as i16)).to_array();
    [
        raised[0].cast_unsigned(),
        raised[1].cast_unsigned(),
        raised[2].cast_unsigned(),
        raised[3].cast_unsigned(),
    ]
}
