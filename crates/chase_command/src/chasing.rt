//! `chase`: a script is read whole, and then its trace is written. Read next: `chase_script/src/script.rt`, and
//! with its rows `trace`.
ghost use Rattle.std.specs.Prelude.{◌≡◌, ◌⊎◌, ℕ, ◌+◌, ◌<◌, ◌≤◌, List, ◌++◌, length, vec_capacity, Some, Ok, Err};
ghost use Rattle.std.specs.Prelude.{OnOk, OnErr, IfOk, IfErr};
ghost use Rattle.std.specs.Io.KnownBytes.{Appends, Consumes, IsAtEnd};
ghost use Rattle.tc_address.specs.declared.count.Count.{Count};
ghost use Rattle.tc_io.specs.Source.{ends_after, Rose};
ghost use Rattle.chase_script.specs.declared.row.ScriptRow.{ScriptRow};
ghost use Rattle.chase_script.specs.Answer.{AreRowsFor};
ghost use Rattle.chase_script.specs.Lock.{KeepsItsLock};
ghost use Rattle.chase_script.specs.Script.{script_in};
ghost use Rattle.chase_command.specs.Chase.{ChaseSeesOneEnd, IsChaseAnswer, IsUnreadOrWhole};
ghost use Rattle.tc_command.specs.Causes.{SourceCause, OutCause};
ghost use Rattle.chase_command.specs.Chase.{chase_status_on};
ghost use Rattle.tc_command.specs.Exchange.{Exchange, IsPulled, IsNoted};
ghost use Rattle.chase_command.specs.KeptScript.{IsChaseStop, IsGatherStop, IsPullStop, IsRowStop, IsTraced};
ghost use Rattle.chase_command.specs.KeptScript.{chase_ended};

use crate::stop::ChaseStop;
use crate::trace::Trace;
use chase_script::{Script, ScriptFault, script_rows};
use std::alloc::Global;
use tc_address::{Count, Label};
use tc_command::{PULLED, Status, give_all, push_note};
use tc_io::{Sink, Source};

/// How many bytes a script has at most.
pub const MAX_SCRIPT: usize = 1_048_576;

/// Works a chase that begins at a label along a script. Nothing is written before the whole script was
/// read and each row was judged.
pub fn chase<S: Source, K: Sink, N: Sink>(
    alloc: Global,
    label: &Label,
    source: &mut S,
    out: &mut K,
    notes: &mut N,
) -> Status
    // What was pulled, what was written, and the note are those of the status. A trace that was written keeps its
    // lock. Whatever the status, what was written is a front of the trace if the whole input is a script, and else
    // nothing.
    ensures answer { (e : Exchange) × IsPulled (S.left source.old) (S.left source.new) e
        × Appends (K.written out.old) (K.written out.new) e.written
        × IsNoted (N.written notes.old) (N.written notes.new) (N.faults notes.old) (N.faults notes.new) e
        × IsChaseAnswer label.now result e }
    ensures no_note { result ≡ Status.Done → notes.new ≡ notes.old }

    // Want of memory writes nothing, and comes before the first pull, or behind the end of the script.
    ensures no_usage { result ≡ Status.Usage → ⊥ }
    ensures no_memory { result ≡ Status.Memory → out.new ≡ out.old }
    ensures unread { result ≡ Status.Memory → IsUnreadOrWhole S.ends source.old source.new }

    // A read fault and a write fault come only if a count of faults rose, and the end of the input is seen once.
    ensures source { SourceCause result (S.faults source.old) (S.faults source.new) }
    ensures once { ChaseSeesOneEnd result (S.ends source.old) (S.ends source.new) }
    ensures out { OutCause result (K.faults out.old) (K.faults out.new) }

    // If no count of faults rises, the whole input leaves one status, lack of memory aside.
    ensures status { (input : List ℕ) → S.left source.old ≡ Some input
        → ¬ Rose (S.faults source.old) (S.faults source.new) → ¬ Rose (K.faults out.old) (K.faults out.new)
        → (result ≡ chase_status_on label.now input) ⊎ (result ≡ Status.Memory) }
{
    match trace_script(alloc, label, source, out) {
        Ok(()) => Status::Done,
        Err(stop) => {
            push_note(notes, &stop.note());
            stop.status()
        }
    }
}

/// Reads a script whole, and writes its trace.
fn trace_script<S: Source, K: Sink>(
    alloc: Global,
    label: &Label,
    source: &mut S,
    out: &mut K,
) -> Result<(), ChaseStop>
    ensures ends { OnOk result ((pulled written : List ℕ) × (rows : List ScriptRow)
        × Consumes (S.left source.old) (S.left source.new) pulled
        × Appends (K.written out.old) (K.written out.new) written
        × IsTraced label.now (S.left source.new) pulled written rows × KeepsItsLock label.now rows) }
    ensures stops { IfErr result (λ stop. (pulled written : List ℕ)
        × Consumes (S.left source.old) (S.left source.new) pulled
        × Appends (K.written out.old) (K.written out.new) written
        × IsChaseStop label.now stop (S.left source.new) pulled written) }
    ensures source { SourceCause (chase_ended result) (S.faults source.old) (S.faults source.new) }
    ensures once { ChaseSeesOneEnd (chase_ended result) (S.ends source.old) (S.ends source.new) }
    ensures out { OutCause (chase_ended result) (K.faults out.old) (K.faults out.new) }
    ensures no_memory { result ≡ Err ChaseStop.Memory → out.new ≡ out.old }
    ensures unread { result ≡ Err ChaseStop.Memory → IsUnreadOrWhole S.ends source.old source.new }
{
    let script = gather(alloc, source)?;
    let rows = judge(alloc, &script, label.count())?;
    match give_all(&mut Trace::new(label, rows), out) {
        Ok(()) => Ok(()),
        Err(_) => Err(ChaseStop::WriteFault),
    }
}

/// The rows of a script.
fn judge(alloc: Global, script: &[u8], count: Count) -> Result<Script, ChaseStop>
    ensures rows { IfOk result (λ rows. script_in count script.now ≡ Ok rows.items) }
    ensures fit { IfOk result (λ rows. AreRowsFor count rows.items) }
    ensures stops { IfErr result (λ stop. IsRowStop (script_in count script.now) stop) }
{
    match script_rows(alloc, script, count) {
        Ok(rows) => Ok(rows),
        Err(ScriptFault::Row(fault)) => Err(ChaseStop::Refused(fault)),
        Err(ScriptFault::Memory(_)) => Err(ChaseStop::Memory),
    }
}

/// Pulls a whole script into memory, which is allocated before the first pull. At most a byte more is pulled than
/// a script may have.
fn gather<S: Source>(alloc: Global, source: &mut S) -> Result<Vec<u8>, ChaseStop>
    ensures whole { IfOk result (λ script. Consumes (S.left source.old) (S.left source.new) script.items
        × IsAtEnd (S.left source.new) × (length script.items ≤ MAX_SCRIPT)) }
    ensures stops { IfErr result (λ stop. (pulled : List ℕ) × Consumes (S.left source.old) (S.left source.new) pulled
        × IsGatherStop stop pulled) }
    ensures source { SourceCause (chase_ended result) (S.faults source.old) (S.faults source.new) }
    ensures once { ChaseSeesOneEnd (chase_ended result) (S.ends source.old) (S.ends source.new) }
    ensures unread { result ≡ Err ChaseStop.Memory → source.new ≡ source.old }
{
    let Ok(mut script) = Vec::with_capacity(alloc, MAX_SCRIPT + 1) else {
        return Err(ChaseStop::Memory);
    };
    let mut buf = [0; PULLED];
    'pulls: loop {
        let room = PULLED.min(MAX_SCRIPT + 1 - script.len());
        let count = pull_behind(source, &mut buf[..room], &mut script)?;
        if count == 0 {
            return Ok(script);
        }
        if MAX_SCRIPT < script.len() {
            return Err(ChaseStop::Limit);
        }
    }
}

/// Pulls once into a room, and puts what came behind the script. How many bytes it was.
fn pull_behind<S: Source>(
    source: &mut S,
    room: &mut [u8],
    script: &mut Vec<u8>,
) -> Result<usize, ChaseStop>
    requires some { 0 < length room.old }
    requires fits { length script.old.items + length room.old ≤ vec_capacity script.old }
    ensures takes { IfOk result (λ count. (bytes : List ℕ) × Consumes (S.left source.old) (S.left source.new) bytes
        × (script.new.items ≡ script.old.items ++ bytes) × (length bytes ≡ count) × (count ≤ length room.old)) }
    ensures capacity { IfOk result (λ _. vec_capacity script.old ≤ vec_capacity script.new) }
    ensures end { IfOk result (λ count. count ≡ 0 → IsAtEnd (S.left source.new)) }
    ensures stops { IfErr result (λ stop. (bytes : List ℕ) × Consumes (S.left source.old) (S.left source.new) bytes
        × IsPullStop stop bytes) }
    ensures source { SourceCause (chase_ended result) (S.faults source.old) (S.faults source.new) }
    ensures seen { OnOk result (S.ends source.new ≡ ends_after (S.ends source.old) result (length room.old)) }
    ensures unseen { OnErr result (ChaseSeesOneEnd (chase_ended result) (S.ends source.old) (S.ends source.new)) }
{
    let Ok(count) = source.pull(room) else {
        return Err(ChaseStop::ReadFault);
    };
    if script.extend_from_slice(&room[..count]).is_err() {
        unreachable!();
    }
    Ok(count)
}
