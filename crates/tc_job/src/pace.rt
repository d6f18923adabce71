//! When the intervals of a distance are written: when it has ended, or as it passes, in quarters of a frame. Read
//! next: `path_slicing`.
ghost use Rattle.std.specs.Prelude.{◌≡◌};
ghost use Rattle.pcm_front.specs.Distance.{IsInterval};
ghost use Rattle.pcm_front.specs.Pace.{IsPace};
ghost use Rattle.tc_job.specs.Pace.{pace_of, quarter_frame};

use limits::MAX_INTERVAL;
use pcm_front::Pace;
use tc_address::{System, rate};

/// When the intervals of a distance are written: as it passes if the recording is live.
pub(crate) fn pace_of(live: bool, system: System, tick_rate: u32) -> Pace
    ensures value { result ≡ pace_of live system tick_rate }
    ensures valid { IsPace result }
{
    if live {
        Pace::Passing(quarter_frame(system, tick_rate))
    } else {
        Pace::Ended
    }
}

/// A quarter of a frame at play speed, in ticks: as long as an interval can be.
fn quarter_frame(system: System, tick_rate: u32) -> u32
    ensures value { result ≡ quarter_frame system tick_rate }
    ensures valid { IsInterval result }
{
    let quarter = tick_rate / (4 * rate(system));
    quarter.max(1).min(MAX_INTERVAL)
}
