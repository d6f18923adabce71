//! The way out of a command that reads nothing: its output goes out piece by piece, in fixed room.
//! Read next: `piece`.
ghost use Rattle.std.specs.Prelude.{◌≡◌, ℕ, ◌<◌, ◌≤◌, List, [], ◌++◌, true, false, OnOk, OnErr, IfErr};
ghost use Rattle.std.specs.Io.KnownBytes.{Appends};
ghost use Rattle.tc_io.specs.Sink.{AppendsFront};
ghost use Rattle.tc_io.specs.Bytes.{AreBytes};
ghost use Rattle.tc_command.specs.Causes.{HasOutCause};

use crate::piece::{PIECE, Piece};
use crate::stop::Stop;
use tc_io::{Sink, push_all};

/// A command that reads nothing, and has some of its output still to give.
pub trait Maker {
    /// The output that it has still to give.
    ghost rest: { Self → List ℕ };

    /// How many pieces that is, at most.
    ghost pieces: { Self → ℕ };

    /// Puts the next piece into an empty room, and returns whether there was one.
    fn give(&mut self, room: &mut Piece) -> bool
        requires { room.old.items ≡ [] }
        ensures given { rest self.old ≡ room.new.items ++ rest self.new }
        ensures more { result ≡ true → pieces self.new < pieces self.old }
        ensures all { result ≡ false → rest self.old ≡ [] };
}

/// Pushes each piece.
pub fn give_all<M: Maker, K: Sink>(maker: &mut M, out: &mut K) -> Result<(), Stop>
    ensures all { OnOk result (Appends (K.written out.old) (K.written out.new) (M.rest maker.old)) }
    ensures front { OnErr result (AppendsFront (K.written out.old) (K.written out.new) (M.rest maker.old)) }
    ensures why { IfErr result (λ stop. stop ≡ Stop.WriteFault) }
    ensures cause { HasOutCause (K.faults out.old) (K.faults out.new) result }
{
    let mut room = Piece::new();
    'pieces: while maker.give(&mut room) {
        push_piece(out, room.as_slice())?;
        room.clear();
    }
    Ok(())
}

/// Pushes a text, piece by piece.
pub(crate) fn give_text<K: Sink>(text: &[u8], out: &mut K) -> Result<(), Stop>
    ensures all { OnOk result (Appends (K.written out.old) (K.written out.new) text.now) }
    ensures front { OnErr result (AppendsFront (K.written out.old) (K.written out.new) text.now) }
    ensures why { IfErr result (λ stop. stop ≡ Stop.WriteFault) }
    ensures cause { HasOutCause (K.faults out.old) (K.faults out.new) result }
{
    let mut at = 0;
    'pieces: while at < text.len() {
        let end = text.len().min(at + PIECE);
        push_piece(out, &text[at..end])?;
        at = end;
    }
    Ok(())
}

/// Pushes one piece.
fn push_piece<K: Sink>(out: &mut K, bytes: &[u8]) -> Result<(), Stop>
    ensures all { OnOk result (Appends (K.written out.old) (K.written out.new) bytes.now) }
    ensures front { OnErr result (AppendsFront (K.written out.old) (K.written out.new) bytes.now) }
    ensures why { IfErr result (λ stop. stop ≡ Stop.WriteFault) }
    ensures cause { HasOutCause (K.faults out.old) (K.faults out.new) result }
{
    push_all(out, bytes)?;
    Ok(())
}
