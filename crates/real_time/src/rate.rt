//! How many frames pass in real time. Read next: `moment`.
ghost use Rattle.std.specs.Prelude.{◌≡◌, ◌≤◌};
ghost use Rattle.real_time.specs.Rate.{frames_in, seconds_of};

/// How many frames pass in real time.
#[derive(Clone, Copy)]
pub enum FrameRate {
    /// 24 frames a second.
    R24,
    /// 24 frames a second, pulled down: 24,000 frames in 1,001 seconds.
    PulledDown24,
    /// 25 frames a second.
    R25,
    /// 30 frames a second.
    R30,
    /// 30 frames a second, pulled down: 30,000 frames in 1,001 seconds. Drop-frame counting belongs to it.
    PulledDown30,
}

impl FrameRate {
    /// How many frames pass in `seconds` seconds.
    pub fn frames(self) -> u64
        ensures value { result ≡ frames_in self }
        ensures some { 24 ≤ result }
        ensures most { result ≤ 30_000 }
    {
        match self {
            FrameRate::R24 => 24,
            FrameRate::PulledDown24 => 24_000,
            FrameRate::R25 => 25,
            FrameRate::R30 => 30,
            FrameRate::PulledDown30 => 30_000,
        }
    }

    /// The least whole number of seconds in which a whole number of frames passes.
    pub fn seconds(self) -> u64
        ensures value { result ≡ seconds_of self }
        ensures some { 1 ≤ result }
        ensures most { result ≤ 1_001 }
    {
        match self {
            FrameRate::R24 | FrameRate::R25 | FrameRate::R30 => 1,
            FrameRate::PulledDown24 | FrameRate::PulledDown30 => 1_001,
        }
    }
}
