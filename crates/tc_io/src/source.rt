//! What is pulled for bytes.
ghost use Rattle.std.specs.Prelude.{◌≡◌, ℕ, List, Option, None, length};
ghost use Rattle.std.specs.Io.{ReadsAtMost};
ghost use Rattle.std.specs.Io.KnownBytes.{ReadConsumes};
ghost use Rattle.tc_io.specs.Source.{HasCause, ends_after};

use crate::failed::Failed;

/// Bytes that come in.
pub trait Source {
    /// The bytes that are left, if they are known.
    ghost left: { Self → Option (List ℕ) };

    /// How often the source has failed. The count stops at `u64::MAX`.
    ghost faults: { Self → ℕ };

    /// How many pulls came at the end of the input or behind it: the first that was answered with the
    /// end, and each one after it, whatever its answer. The count stops at `u64::MAX`.
    ghost ends: { Self → ℕ };

    /// Takes bytes into the front of a buffer, and answers how many. `Ok(0)` for a buffer that is not
    /// empty is the end of the input.
    fn pull(&mut self, buf: &mut [u8]) -> Result<usize, Failed>
        // An `Ok` takes the first bytes that were left, and none only at the end or with no room.
        // A `Failed` leaves all that was left.
        ensures bound { ReadsAtMost result buf.new }
        ensures bytes { ReadConsumes (left self.old) (left self.new) result buf.new }

        // The count never falls, an `Ok` leaves it, and a `Failed` comes only by a fault.
        ensures cause { HasCause (faults self.old) (faults self.new) result }

        // Known bytes stay known (`bytes`), and unknown ones unknown.
        ensures untold { left self.old ≡ None → left self.new ≡ None }

        // Before the end only the pull that comes to it counts, and from then on each one.
        ensures end { ends self.new ≡ ends_after (ends self.old) result (length buf.old) };
}

/// How many pulls came at the end or behind it, after one more into `room` bytes.
pub(crate) fn ends_after(ends: u64, answer: &Result<usize, Failed>, room: usize) -> u64
    ensures { result ≡ ends_after ends answer.now room }
{
    if ends > 0 || (room > 0 && matches!(answer, Ok(0))) {
        ends.saturating_add(1)
    } else {
        ends
    }
}
