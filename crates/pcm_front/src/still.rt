//! Samples in whose sums the sound stays on its side. Read next: `finder`.
ghost use Rattle.std.specs.Prelude.{◌≤◌, length};
ghost use Rattle.pcm_front.specs.KeptRuns.{PassesTo};
ghost use Rattle.pcm_front.specs.Level.{IsInRange, IsSum};
ghost use Rattle.pcm_front.specs.State.{window_of, IsRing, IsThreshold};

use crate::level::Level;
use crate::samples::Samples;
use crate::side::{Side, stays};
use crate::threshold::Threshold;
use crate::window::{Turn, summed};

/// How far samples were passed over, with the sum of the last of them and the level after it.
#[derive(Clone, Copy)]
pub(crate) struct Passed {
    pub(crate) end: usize,
    pub(crate) before: i32,
    pub(crate) level: Level,
}

/// Passes over samples from a place on, as long as none of the sums that a ring makes of them can lead to
/// another side, whatever the level.
pub(crate) fn pass_ring<S: Samples>(
    turn: Turn,
    ring: &mut [i16; 15],
    samples: &S,
    from: Passed,
    side: Option<Side>,
    threshold: Threshold,
) -> (Turn, Passed)
    requires ring { IsRing turn.smooth ring.old turn.oldest turn.sum }
    requires more { 2 ≤ turn.smooth }
    requires place { from.end ≤ length (S.list samples.now) }
    requires before { IsSum from.before }
    requires level { IsInRange from.level }
    requires threshold { IsThreshold threshold }
    ensures ring { IsRing result.0.smooth ring.new result.0.oldest result.0.sum }
    ensures order { from.end ≤ result.1.end }
    ensures within { result.1.end ≤ length (S.list samples.now) }
    ensures before { IsSum result.1.before }
    ensures level { IsInRange result.1.level }
    ensures passes { PassesTo side threshold (S.list samples.now) from result.1
        (window_of turn.smooth ring.old turn.oldest)
        (window_of result.0.smooth ring.new result.0.oldest) }
{
    let (count, least) = (samples.count(), threshold.least());
    let (mut now, mut passed) = (turn, from);
    'samples: while passed.end < count {
        let sample = samples.at(passed.end);
        let sum = summed(now.sum, sample);
        if !stays(side, least, sum) {
            break;
        }
        let level = threshold.next_level(passed.level, sum);
        now = now.put(ring, sample);
        passed = Passed {
            end: passed.end + 1,
            before: sum,
            level,
        };
    }
    (now, passed)
}
