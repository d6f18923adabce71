//! When the intervals of a distance are written. Read next: `interval`.
ghost use Rattle.std.specs.Prelude.{◌≡◌, ◌≤◌, ◌^◌, ◌++◌, is_some, IfSome};
ghost use Rattle.std.specs.List.{flat_map};
ghost use Rattle.std.specs.Option.{option_to_list};
ghost use Rattle.pcm_front.specs.Distance.{pieces_in};
ghost use Rattle.pcm_front.specs.Pace.{begun, begun_in, intervals_in, longest, IsPace, Passes};

use crate::interval::{Intervals, pieces};
use limits::MAX_INTERVAL;

/// When the intervals of a distance are written, and how long they are at most.
#[derive(Clone, Copy)]
pub enum Pace {
    /// When the distance has ended, each of at most `MAX_INTERVAL`.
    Ended,
    /// As it passes, in pieces of this number of ticks, from 1 to `MAX_INTERVAL`.
    Passing(u32),
}

impl Pace {
    /// The length of a whole piece.
    #[inline(always)]
    fn longest(self) -> u32
        ensures { result ≡ longest self }
    {
        match self {
            Pace::Ended => MAX_INTERVAL,
            Pace::Passing(length) => length,
        }
    }

    /// How many whole pieces a distance that has not ended has, if `passed` ticks of it have passed.
    #[inline(always)]
    fn begun(self, passed: u64) -> u64
        requires { IsPace self }
        ensures value { result ≡ begun_in self passed }
        ensures most { result ≤ passed }
    {
        match self {
            Pace::Ended => 0,
            Pace::Passing(length) => passed / u64::from(length),
        }
    }

    /// What is added to the pieces of a distance of which `before` ticks had passed: `distance` is its
    /// length if it has ended, and `now` ticks have passed of the one that has not.
    #[inline(always)]
    pub(crate) fn intervals(self, before: u64, distance: Option<u64>, now: u64) -> Intervals
        requires pace { IsPace self }
        requires range { IfSome distance (λ distance. (1 ≤ distance) × (distance ≤ 2 ^ 62)) }
        requires passes { Passes before distance now }
        ensures intervals { begun self before ++ intervals_in result
            ≡ flat_map (pieces_in (longest self)) (option_to_list distance) ++ begun self now }
        ensures length { result.length ≡ longest self }
        ensures ended { is_some result.rest ≡ is_some distance }
        ensures rest { IfSome result.rest (λ rest. (1 ≤ rest) × (rest ≤ longest self)) }
    {
        let length = self.longest();
        let (before, begun) = (self.begun(before), self.begun(now));
        match distance {
            Some(distance) => {
                let (whole, rest) = pieces(length, distance - before * u64::from(length));
                Intervals {
                    length,
                    whole,
                    rest: Some(rest),
                    begun,
                }
            }
            None => Intervals {
                length,
                whole: 0,
                rest: None,
                begun: begun - before,
            },
        }
    }
}
