//! When the frames of a rate begin, and which frame of another rate is shown then. Read next: `laws`.
ghost use Rattle.std.specs.Prelude.{◌≡◌, ◌≤◌, ◌<◌, ◌^◌};
ghost use Rattle.real_time.specs.declared.moment.TheConstants.{MAX_FRAMES, MAX_MILLISECONDS};
ghost use Rattle.real_time.specs.Moment.{IsFrameOf, IsMillisecondOf, IsNearest, IsShown};
ghost use Rattle.real_time.specs.Moment.{frame_at, millisecond_at, nearest, passed_at, shown_at};

use crate::rate::FrameRate;

/// The most frames that are taken, more than a day of any rate has.
pub const MAX_FRAMES: u64 = 1 << 22;

/// The most milliseconds that are taken, more than the frames of a day take at any rate.
pub const MAX_MILLISECONDS: u64 = 1 << 28;

/// The millisecond after midnight that lies nearest to the beginning of a frame, the later one of two.
pub fn milliseconds(rate: FrameRate, frame: u64) -> u64
    requires few { frame ≤ MAX_FRAMES }
    ensures nearest { IsMillisecondOf rate frame result }
    ensures value { result ≡ millisecond_at rate frame }
{
    nearest(frame * rate.seconds() * 1000, rate.frames())
}

/// The frame whose beginning lies nearest to a millisecond after midnight, the later one of two.
pub fn frame_of(rate: FrameRate, millisecond: u64) -> u64
    requires few { millisecond ≤ MAX_MILLISECONDS }
    ensures nearest { IsFrameOf rate millisecond result }
    ensures value { result ≡ frame_at rate millisecond }
{
    nearest(millisecond * rate.frames(), rate.seconds() * 1000)
}

/// What is shown of another rate.
#[derive(Clone, Copy)]
pub struct Shown {
    /// The frame, counted from midnight, whatever a day has.
    pub frame: u64,
    /// How many whole thousandths of it have passed, 999 at most.
    pub thousandths: u64,
}

/// The frame of another rate that is shown when a frame of a rate begins.
pub fn frame_shown(rate: FrameRate, frame: u64, other: FrameRate) -> Shown
    requires few { frame ≤ MAX_FRAMES }
    ensures shown { IsShown rate frame other result.frame result.thousandths }
    ensures part { result.thousandths < 1000 }
    ensures frame { result.frame ≡ shown_at rate frame other }
    ensures thousandths { result.thousandths ≡ passed_at rate frame other }
{
    let over = frame * rate.seconds() * other.frames();
    let under = other.seconds() * rate.frames();
    Shown {
        frame: over / under,
        thousandths: over % under * 1000 / under,
    }
}

/// The whole number that lies nearest to a fraction, the greater one of two.
fn nearest(over: u64, under: u64) -> u64
    requires over { over < 2 ^ 60 }
    requires under { (0 < under) × (under < 2 ^ 60) }
    ensures nearest { IsNearest over under result }
    ensures value { result ≡ nearest over under }
{
    (2 * over + under) / (2 * under)
}
