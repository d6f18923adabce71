//! The sides of the threshold. Read next: `crossing`.
ghost use Rattle.std.specs.Prelude.{◌≡◌, ◌≤◌, cond, None};
ghost use Rattle.pcm_front.specs.Level.{IsSum};
ghost use Rattle.pcm_front.specs.Side.{side_of, stays, differs, upward};

/// A side of the threshold.
#[derive(Clone, Copy)]
pub enum Side {
    High,
    Low,
}

/// The side on which a sum lies, if it lies on one.
pub(crate) fn side_of(threshold: u32, sum: i32) -> Option<Side>
    requires { threshold ≤ 524_272 }
    ensures { result ≡ side_of threshold sum }
{
    let threshold = threshold as i32;
    if threshold <= sum {
        Some(Side::High)
    } else if sum <= -threshold {
        Some(Side::Low)
    } else {
        None
    }
}

/// Whether the sound stays on its side, or on none. It does at nearly every sum, so one comparison decides it.
pub(crate) fn stays(side: Option<Side>, threshold: u32, sum: i32) -> bool
    requires least { 1 ≤ threshold }
    requires most { threshold ≤ 524_272 }
    ensures { result ≡ stays side (side_of threshold sum) }
{
    let threshold = threshold as i32;
    match side {
        Some(Side::High) => -threshold < sum,
        Some(Side::Low) => sum < threshold,
        None => -threshold < sum && sum < threshold,
    }
}

/// The side to which the sound goes over from the other one, if it does. The side that it was on shows
/// which one that can be, so one comparison is enough.
pub(crate) fn crossed(before: Option<Side>, threshold: u32, sum: i32) -> Option<Side>
    requires least { 1 ≤ threshold }
    requires most { threshold ≤ 524_272 }
    ensures { result ≡ cond (differs before (side_of threshold sum)) (side_of threshold sum) None }
{
    let threshold = threshold as i32;
    match before {
        Some(Side::High) if sum <= -threshold => Some(Side::Low),
        Some(Side::Low) if threshold <= sum => Some(Side::High),
        _ => None,
    }
}

impl Side {
    /// The sum, seen so that this side lies above.
    pub(crate) fn upward(self, sum: i32) -> i32
        requires { IsSum sum }
        ensures value { result ≡ upward self sum }
        ensures size { IsSum result }
    {
        match self {
            Side::High => sum,
            Side::Low => -sum,
        }
    }
}
