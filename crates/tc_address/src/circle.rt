//! Places on a circle, as a day is one: steps, and the shortest way.
ghost use Rattle.std.specs.Prelude.{◌≡◌, ◌+◌, ◌*◌, ◌%◌, ◌<◌, ◌≤◌, ◌⊎◌};
ghost use Rattle.tc_address.specs.Circle.{moved, ahead, shortest_way, IsShortest};

/// The place `steps` places further on a circle of `day` places, or back if `steps` is negative.
pub(crate) fn moved(day: u32, place: u32, steps: i64) -> u32
    requires most { day ≤ 207_360_000 }
    requires inside { place < day }
    ensures { result ≡ moved day place steps }
{
    let ahead = steps.rem_euclid(i64::from(day)) as u32;
    (place + ahead) % day
}

/// How far place b lies ahead of place a.
#[tactic(auto, using(crate::proofs::AroundTheDay::ahead_low, crate::proofs::AroundTheDay::ahead_high))]
fn ahead(day: u32, a: u32, b: u32) -> u32
    requires from { a < day }
    requires to { b < day }
    ensures way { result ≡ ahead day a b }
    ensures within { result < day }
    ensures reaches { (a + result ≡ b) ⊎ (a + result ≡ b + day) }
{
    if a <= b { b - a } else { day - a + b }
}

/// The shortest way from place a to place b of a circle of `day` places, with the sign of its
/// direction. Half the circle is taken forward.
pub fn shortest(day: u32, a: u32, b: u32) -> i32
    requires most { day ≤ 207_360_000 }
    requires even { day % 2 ≡ 0 }
    requires from { a < day }
    requires to { b < day }
    ensures shortest { IsShortest day a b result }
    ensures way { result ≡ shortest_way day a b }
{
    let ahead = ahead(day, a, b);
    if ahead <= day / 2 {
        ahead as i32
    } else {
        -((day - ahead) as i32)
    }
}
