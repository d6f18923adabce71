//! Intervals that are found, and not read yet. Read next: `direction_reader/src/witness.rt`.
ghost use Rattle.std.specs.Prelude.{◌≡◌, ◌<◌, ◌++◌, [], ◌∷◌, IfSome, None};
ghost use Rattle.std.specs.Option.{option_to_list};
ghost use Rattle.pcm_front.specs.Distance.{IsInterval};
ghost use Rattle.pcm_front.specs.Pace.{intervals_in};
ghost use Rattle.sound_reader.specs.Waiting.{count_of, AreIntervals};

use pcm_front::Intervals;

/// Takes the first of them.
pub(crate) fn next(waiting: &mut Intervals) -> Option<u32>
    requires { AreIntervals waiting.old }
    ensures kept { AreIntervals waiting.new }
    ensures range { IfSome result IsInterval }
    ensures fewer { IfSome result (λ x. count_of waiting.new < count_of waiting.old) }
    ensures value { option_to_list result ++ intervals_in waiting.new ≡ intervals_in waiting.old }
    ensures done { result ≡ None → intervals_in waiting.new ≡ [] }
    ensures same { result ≡ None → waiting.new ≡ waiting.old }
{
    if waiting.whole > 0 {
        waiting.whole -= 1;
        return Some(waiting.length);
    }
    if let Some(rest) = waiting.rest {
        waiting.rest = None;
        return Some(rest);
    }
    if waiting.begun > 0 {
        waiting.begun -= 1;
        return Some(waiting.length);
    }
    None
}

/// The interval, if it is the rest of a distance and alone.
#[inline(always)]
pub(crate) fn alone(found: &Intervals) -> Option<u32>
    requires { AreIntervals found.now }
    ensures range { IfSome result IsInterval }
    ensures value { IfSome result (λ x. intervals_in found.now ≡ x ∷ []) }
{
    if found.whole > 0 || found.begun > 0 {
        return None;
    }
    found.rest
}
