//! A count together with the rate at which its frames run. Read next: `real_time/src/rate.rt`.
ghost use Rattle.std.specs.Prelude.{◌≡◌};
ghost use Rattle.label_lines.specs.Timebase.{count_of, rate_of};

use real_time::FrameRate;
use tc_address::Count;

/// How frames are counted, and at which rate they run.
#[derive(Clone, Copy)]
pub enum Timebase {
    /// 24 frames a second.
    F24,
    /// Counted as 24 a second, pulled down by 1000/1001.
    PulledDown24,
    /// 25 frames a second.
    F25,
    /// 30 frames a second.
    F30,
    /// Counted as 30 a second, pulled down by 1000/1001.
    PulledDown30,
    /// Drop-frame counting, which is pulled down by itself.
    Drop30,
}

impl Timebase {
    /// How the frames are counted.
    pub fn count(self) -> Count
        ensures { result ≡ count_of self }
    {
        match self {
            Timebase::F24 | Timebase::PulledDown24 => Count::C24,
            Timebase::F25 => Count::C25,
            Timebase::F30 | Timebase::PulledDown30 => Count::C30,
            Timebase::Drop30 => Count::Drop30,
        }
    }

    /// The rate at which they run.
    pub fn rate(self) -> FrameRate
        ensures { result ≡ rate_of self }
    {
        match self {
            Timebase::F24 => FrameRate::R24,
            Timebase::PulledDown24 => FrameRate::PulledDown24,
            Timebase::F25 => FrameRate::R25,
            Timebase::F30 => FrameRate::R30,
            Timebase::PulledDown30 | Timebase::Drop30 => FrameRate::PulledDown30,
        }
    }
}
