//! The way of the input into an engine, and of what it writes to the output, the same for each command. Here alone
//! pulls and pushes may fail. Read next: `outlet`.
ghost use Rattle.std.specs.Prelude.{◌≡◌, ◌⊎◌, ℕ, ◌<◌, ◌≤◌, List, ◌++◌, [], length, take, drop, true, false};
ghost use Rattle.std.specs.Prelude.{OnOk, IfOk, IfErr, Err};
ghost use Rattle.std.specs.Io.KnownBytes.{Appends};
ghost use Rattle.tc_io.specs.Bytes.{AreBytes};
ghost use Rattle.tc_command.specs.Causes.{HasOutCause, HasSourceCause};
ghost use Rattle.tc_command.specs.Ends.{SeesOneEnd};
ghost use Rattle.tc_command.specs.Halt.{IsHalt};
ghost use Rattle.tc_command.specs.Meaning.{Meaning, IsInput};
ghost use Rattle.tc_command.specs.Ran.{CameToItsEnd, StoppedBefore};
ghost use Rattle.tc_command.specs.Stops.{StopsAtEnd};
ghost use Rattle.tc_command.specs.TooFew.{AreTooFew};
ghost use Rattle.tc_command.specs.Worked.{IsWorked};

use crate::engine::Engine;
use crate::halt::Halt;
use crate::inlet::Inlet;
use crate::outlet::Outlet;
use crate::output::Output;
use crate::stop::Stop;
use tc_io::{Sink, Source};

/// Works an engine along its input, behind bytes that are written before the first one of the input comes. What was
/// pulled is worked on before the next pull, but for the last few bytes where they are too few, and what it brought is
/// pushed.
pub(crate) fn run<E: Engine, S: Source, K: Sink>(
    first: &[u8],
    engine: &mut E,
    source: &mut S,
    out: &mut K,
) -> Result<(), Stop>
    requires fits { length first.now ≤ 4096 }
    requires going { E.is_going engine.old }
    requires new { E.stands engine.old [] first.now }
    requires reads { Meaning.reads (E.meaning (E.choice engine.old)) ≡ true }
    ensures { IsWorked (E.meaning (E.choice engine.old)) S.left S.ends S.faults K.written K.faults
        source.old source.new out.old out.new result }
{
    let mut outlet = Outlet::new(out);
    let ended = pull_all(first, engine, source, &mut outlet);
    let Outlet { sink, .. } = outlet;
    // Nothing happens here. The proof reads what the sink is from this use of it.
    let _ = &*sink;
    ended
}

/// Writes what comes first, and pulls the input to its end.
fn pull_all<E: Engine, S: Source, K: Sink>(
    first: &[u8],
    engine: &mut E,
    source: &mut S,
    out: &mut Outlet<'_, K>,
) -> Result<(), Stop>
    requires fits { length first.now ≤ 4096 }
    requires going { E.is_going engine.old }
    requires new { E.stands engine.old [] first.now }
    requires reads { Meaning.reads (E.meaning (E.choice engine.old)) ≡ true }
    requires empty { out.old.gathered.items ≡ [] }
    requires pushes { out.old.has_failed ≡ false }
    ensures same { out.new.sink.ghost_name ≡ out.old.sink.ghost_name }
    ensures ends { OnOk result (CameToItsEnd (E.meaning (E.choice engine.old)) (S.left source.old) (S.left source.new)
        (K.written out.old.sink.now) (K.written out.new.sink.now)) }
    ensures stops { IfErr result
        (λ stop. StoppedBefore (E.meaning (E.choice engine.old)) stop (S.left source.old) (S.left source.new)
        (K.written out.old.sink.now) (K.written out.new.sink.now)) }
    ensures source { HasSourceCause (S.faults source.old) (S.faults source.new) result }
    ensures once { SeesOneEnd (S.ends source.old) (S.ends source.new) result }
    ensures out { HasOutCause (K.faults out.old.sink.now) (K.faults out.new.sink.now) result }
{
    out.gather(first);
    let mut inlet = Inlet::new();
    'pulls: loop {
        out.flush()?;
        let Ok(count) = inlet.pull(source) else {
            return Err(Stop::ReadFault);
        };
        if count == 0 {
            return end(engine, inlet.as_slice(), out);
        }
        match take_all(engine, inlet.as_slice(), out) {
            Ok(count) => inlet.leave_out(count),
            Err(halt) => {
                out.flush()?;
                return Err(halt.stop());
            }
        }
    }
}

/// Works on bytes in order, and answers on how many: on all, but for those at the end that are too few.
fn take_all<E: Engine, O: Output>(engine: &mut E, bytes: &[u8], out: &mut O) -> Result<usize, Halt>
    requires { E.is_going engine.old }
    ensures bytes { AreBytes bytes.now }
    ensures going { OnOk result (E.is_going engine.new) }
    ensures choice { E.choice engine.new ≡ E.choice engine.old }
    ensures count { IfOk result (λ count. count ≤ length bytes.now) }
    ensures budget { IfOk result (λ count. (E.budget engine.new ≤ E.budget engine.old)
        × (1 ≤ count → E.budget engine.new < E.budget engine.old)) }
    ensures works { IfOk result (λ count. (front written : List ℕ) → E.stands engine.old front written
        → (more : List ℕ) × O.given out.old out.new more
        × E.stands engine.new (front ++ take count bytes.now) (written ++ more)) }
    ensures few { IfOk result (λ count.
        AreTooFew (E.meaning (E.choice engine.old)) (E.stands engine.new) (drop count bytes.now)) }
    ensures short { IfOk result (λ count. (drop count bytes.now ≡ []) ⊎ E.is_short engine.new (drop count bytes.now)) }
    ensures halts { IfErr result (λ halt. (front written : List ℕ) → E.stands engine.old front written
        → (more : List ℕ) × O.given out.old out.new more
        × IsHalt (E.meaning (E.choice engine.old)) halt (front ++ bytes.now) (written ++ more)) }
{
    let mut at = 0;
    'bytes: while at < bytes.len() {
        let count = engine.take(&bytes[at..], out)?;
        if count == 0 {
            return Ok(at);
        }
        at += count;
    }
    Ok(at)
}

/// Works on the end of the input, with these bytes behind those that were worked on.
fn end<E: Engine, K: Sink>(engine: &mut E, left: &[u8], out: &mut Outlet<'_, K>) -> Result<(), Stop>
    requires going { E.is_going engine.old }
    requires empty { out.old.gathered.items ≡ [] }
    requires pushes { out.old.has_failed ≡ false }
    requires stands { (bytes written : List ℕ) × E.stands engine.old bytes written }
    requires few { AreTooFew (E.meaning (E.choice engine.old)) (E.stands engine.old) left.now }
    requires short { (left.now ≡ []) ⊎ E.is_short engine.old left.now }
    ensures same { out.new.sink.ghost_name ≡ out.old.sink.ghost_name }
    ensures ends { OnOk result ((bytes written : List ℕ) → E.stands engine.old bytes written
        → (more : List ℕ) × Appends (K.written out.old.sink.now) (K.written out.new.sink.now) more
        × IsInput (E.meaning (E.choice engine.old)) (bytes ++ left.now)
        × Meaning.output (E.meaning (E.choice engine.old)) (bytes ++ left.now) (written ++ more)) }
    ensures none { OnOk result (left.now ≡ []) }
    ensures stops { IfErr result (λ stop. (bytes written : List ℕ) → E.stands engine.old bytes written
        → StopsAtEnd (E.meaning (E.choice engine.old)) stop (K.written out.old.sink.now)
        (K.written out.new.sink.now) (bytes ++ left.now) written) }
    ensures cause { HasOutCause (K.faults out.old.sink.now) (K.faults out.new.sink.now) result }
    ensures no_pull { result ≡ Err Stop.ReadFault → ⊥ }
{
    if !left.is_empty() {
        return match engine.cut_off(left) {
            Some(fault) => Err(Stop::Refused(fault)),
            None => unreachable!(),
        };
    }
    match engine.finish(out) {
        Ok(()) => {
            out.flush()?;
            Ok(())
        }
        Err(fault) => Err(Stop::Refused(fault)),
    }
}
