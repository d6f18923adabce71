//! What is pushed bytes, and the call that pushes all of them. Read next: `memory_sink`.
ghost use Rattle.std.specs.Prelude.{◌≡◌, ℕ, List, [], Option, None, OnOk, OnErr, IsOk};
ghost use Rattle.std.specs.Io.{WritesAtMost};
ghost use Rattle.std.specs.Io.KnownBytes.{Appends, WriteAppends};
ghost use Rattle.tc_io.specs.Source.{HasCause};
ghost use Rattle.tc_io.specs.Sink.{TakesSome, AppendsFront};

use crate::failed::Failed;

/// Where bytes go out to.
pub trait Sink {
    /// The bytes written so far, if they are known.
    ghost written: { Self → Option (List ℕ) };

    /// How often the sink has failed. The count stops at `u64::MAX`.
    ghost faults: { Self → ℕ };

    /// Writes the first bytes of a piece, and answers how many.
    fn push(&mut self, piece: &[u8]) -> Result<usize, Failed>
        // An `Ok` appends the bytes that it took, at least one of a piece that is not empty.
        // A `Failed` leaves what was written.
        ensures bound { WritesAtMost result piece.now }
        ensures moves { TakesSome result piece.now }
        ensures bytes { WriteAppends (written self.old) (written self.new) result piece.now }

        // The count never falls, an `Ok` leaves it, and a `Failed` comes only by a fault.
        ensures cause { HasCause (faults self.old) (faults self.new) result }

        // Known bytes stay known (`bytes`), and unknown ones unknown.
        ensures untold { written self.old ≡ None → written self.new ≡ None };
}

/// Pushes all the bytes, in order, in as many pushes as the sink needs. It stops at the first
/// `Failed`.
pub fn push_all<K: Sink>(sink: &mut K, bytes: &[u8]) -> Result<(), Failed>
    ensures all { OnOk result (Appends (K.written sink.old) (K.written sink.new) bytes.now) }
    ensures front { OnErr result (AppendsFront (K.written sink.old) (K.written sink.new) bytes.now) }
    ensures cause { HasCause (K.faults sink.old) (K.faults sink.new) result }
    ensures untold { K.written sink.old ≡ None → K.written sink.new ≡ None }
    ensures nothing { bytes.now ≡ [] → (sink.new ≡ sink.old) × IsOk result }
{
    let mut at = 0;
    while at < bytes.len() {
        at += sink.push(&bytes[at..])?;
    }
    Ok(())
}
