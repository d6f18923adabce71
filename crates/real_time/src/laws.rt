//! What follows from the definitions alone: that each number is one, and which of them come back.
ghost use Rattle.std.specs.Prelude.{◌≡◌, ℕ, ◌+◌, ◌*◌, ◌<◌, ◌≤◌};
ghost use Rattle.real_time.specs.declared.moment.TheConstants.{MAX_FRAMES, MAX_MILLISECONDS};
ghost use Rattle.real_time.specs.declared.rate.FrameRate.{FrameRate};
ghost use Rattle.real_time.specs.declared.rate.FrameRate.TheVariants.{R24, PulledDown24, R25, R30, PulledDown30};
ghost use Rattle.real_time.specs.Moment.{IsFrameOf, IsMillisecondOf, IsNearest, IsShown, IsWholeOf};
ghost use Rattle.real_time.specs.Moment.{frame_at, millisecond_at};
ghost use Rattle.real_time.specs.Rate.{frames_in, seconds_of};

/// One whole number lies nearest to a fraction, and one is what is whole of it.
pub fn one_whole_number_is_meant()
    ensures nearest { (over under a b : ℕ) → IsNearest over under a → IsNearest over under b → a ≡ b }
    ensures whole { (over under a b : ℕ) → IsWholeOf over under a → IsWholeOf over under b → a ≡ b }
{}

/// A frame comes back from its millisecond.
pub fn a_frame_comes_back_from_its_millisecond()
    ensures frame { (rate : FrameRate) (frame millisecond : ℕ) → IsMillisecondOf rate frame millisecond
        → IsFrameOf rate millisecond frame }
    ensures value { (rate : FrameRate) (frame : ℕ) → frame_at rate (millisecond_at rate frame) ≡ frame }
{}

/// A frame is shown in itself, from its beginning on.
pub fn a_frame_is_shown_in_itself()
    ensures { (rate : FrameRate) (frame : ℕ) → IsShown rate frame rate frame 0 }
{}

/// If the other rate is as fast or faster, the first of its frames that begins with a frame or behind it leads back
/// to that frame: the one that is shown, if it begins at that very moment, and else the next one.
pub fn a_frame_comes_back_from_a_faster_rate()
    ensures at { (rate other : FrameRate) (frame there : ℕ)
        → frame * seconds_of rate * frames_in other ≡ there * seconds_of other * frames_in rate
        → IsShown other there rate frame 0 }
    ensures behind { (rate other : FrameRate) (frame there passed : ℕ)
        → frames_in rate * seconds_of other ≤ frames_in other * seconds_of rate → IsShown rate frame other there passed
        → there * seconds_of other * frames_in rate < frame * seconds_of rate * frames_in other
        → IsWholeOf ((there + 1) * seconds_of other * frames_in rate) (seconds_of rate * frames_in other) frame }
{}

/// Moments at the edges, by hand: the second frame of 24 a second begins 41.667 ms after midnight; an hour of frames
/// that
/// are counted at 30 a second and pulled down lasts 3.6 s more than an hour; the 107,892 labels of an hour of
/// drop-frame
/// counting take 3,599.9964 s; frame 12 of 24 a second begins in the middle of frame 12 of 25.
pub fn moments_by_hand()
    ensures second { IsMillisecondOf R24 1 42 }
    ensures hour { IsMillisecondOf PulledDown30 108_000 3_603_600 }
    ensures drop_frame { IsMillisecondOf PulledDown30 107_892 3_599_996 }
    ensures half { IsShown R24 12 R25 12 500 }
    ensures last { IsShown R24 23 R25 23 958 }
{}

/// The most frames and milliseconds that are taken: more than a day has at any rate.
pub fn the_limits_hold_a_day()
    ensures frames { MAX_FRAMES ≡ 4194304 }
    ensures milliseconds { MAX_MILLISECONDS ≡ 268435456 }
{}
