//! The intervals of a distance.
ghost use Rattle.std.specs.Prelude.{◌≡◌, ◌+◌, ◌*◌, ◌≤◌, ◌^◌, [], ◌∷◌, ◌++◌, replicate};
ghost use Rattle.pcm_front.specs.Distance.{pieces_in, IsInterval};

/// Intervals in a row: those of a distance that ended, behind what was written of it before, and those
/// of the one that has begun.
#[derive(Clone, Copy)]
pub struct Intervals {
    /// The length of a whole piece, in ticks.
    pub length: u32,
    /// How many whole pieces come first.
    pub whole: u64,
    /// Then the rest of a distance, if one ended.
    pub rest: Option<u32>,
    /// And the number of whole pieces of one that has not ended.
    pub begun: u64,
}

/// How many whole pieces of a length a distance begins with, and the interval that follows them.
#[tactic(auto, using(crate::specs::DistanceLemmas::one_piece_in))]
#[inline(always)]
pub fn pieces(length: u32, distance: u64) -> (u64, u32)
    requires length { IsInterval length }
    requires least { 1 ≤ distance }
    requires most { distance ≤ 2 ^ 62 }
    ensures pieces { pieces_in length distance ≡ replicate result.0 length ++ result.1 ∷ [] }
    ensures whole { result.0 * length + result.1 ≡ distance }
    ensures least { 1 ≤ result.1 }
    ensures most { result.1 ≤ length }
{
    let length = u64::from(length);
    if distance <= length {
        // Nearly every distance, and no division.
        return (0, distance as u32);
    }
    let whole = (distance - 1) / length;
    (whole, (distance - whole * length) as u32)
}
