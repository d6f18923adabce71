//! Pairs of neighbouring intervals. Read next: `profile`.
ghost use Rattle.biphase.specs.Pair.{IsKind};

use crate::profile::{Profile, is_at_least};

/// What two neighbouring intervals can be to each other.
#[derive(Clone, Copy)]
pub enum PairKind {
    /// Equal: two zeros, or two halves.
    Same,
    /// Unequal: a zero and a half.
    Step,
    /// Neither. No recording within the tolerance has such a pair.
    Wild,
}

/// What the neighbouring intervals `a` and `b`, in ticks, can be to each other. Their order
/// does not matter.
pub fn kind(profile: Profile, a: u32, b: u32) -> PairKind
    ensures { IsKind profile a b result }
{
    let (lesser, greater) = if a < b { (a, b) } else { (b, a) };
    let (lesser, greater) = (u64::from(lesser), u64::from(greater));
    if is_at_least(profile.equal(), lesser, greater) {
        PairKind::Same
    } else if is_at_least(profile.unequal(), lesser, greater) {
        PairKind::Step
    } else {
        PairKind::Wild
    }
}
