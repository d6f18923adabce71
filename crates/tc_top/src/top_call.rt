//! The top call: words and bytes in, bytes and a status out. Read next: `command_words/src/command_line.rt`, and
//! with the job `streaming`.
ghost use Rattle.std.specs.Prelude.{◌≡◌, ◌⊎◌, ℕ, List, map, string_bytes, Some, false, Ok, Err};
ghost use Rattle.std.specs.Io.KnownBytes.{Appends};
ghost use Rattle.tc_io.specs.Source.{Rose};
ghost use Rattle.tc_job.specs.declared.fault.WordsFault.{WordsFault};
ghost use Rattle.tc_address.specs.Label.{Address};
ghost use Rattle.tc_job.specs.declared.job.Job.{Job};
ghost use Rattle.tc_job.specs.declared.job.Task.{Task};
ghost use Rattle.tc_words.specs.Words.{answer_to, IsRefusedAtOnce};
ghost use Rattle.tc_top.specs.Answer.{IsRunAnswer};
ghost use Rattle.tc_command.specs.WholeInput.{HasStatus};
ghost use Rattle.tc_command.specs.Causes.{SourceCause, OutCause};
ghost use Rattle.tc_command.specs.Ends.{EndsSeen};
ghost use Rattle.chase_command.specs.Chase.{ChaseSeesOneEnd, IsUnreadOrWhole, chase_status_on};
ghost use Rattle.tc_top.specs.Commands.{meaning_of};
ghost use Rattle.tc_command.specs.Exchange.{Exchange, IsPulled, IsNoted};
ghost use Rattle.tc_command.specs.Meaning.{Meaning};

use crate::streaming::stream;
use chase_command::chase;
use std::alloc::Global;
use tc_command::{Status, push_note, usage_note};
use tc_io::{Sink, Source};
use tc_job::Task;
use tc_words::read_words;

/// Does all that the program does. The words are those after the program's own name, the command
/// first. The output goes to `out`, and one line to `notes` for each status but Done.
pub fn run<S: Source, K: Sink, N: Sink>(
    alloc: Global,
    words: &[String],
    source: &mut S,
    out: &mut K,
    notes: &mut N,
) -> Status
    // What was pulled, what was written, and the note are those of the status, and what is done keeps its promise.
    // Whatever the status, what was written is a front of the output of the whole input.
    ensures answer { (e : Exchange) × IsPulled (S.left source.old) (S.left source.new) e
        × Appends (K.written out.old) (K.written out.new) e.written
        × IsNoted (N.written notes.old) (N.written notes.new) (N.faults notes.old) (N.faults notes.new) e
        × IsRunAnswer (map string_bytes words.now) result e }
    ensures no_note { result ≡ Status.Done → notes.new ≡ notes.old }

    // Words that name no task begin nothing, and so does lack of memory, unless a script was pulled to its end. No
    // memory is wanted for no words, and for words of which one begins with a dash.
    ensures at_once { IsRefusedAtOnce (map string_bytes words.now) → result ≡ Status.Usage }
    ensures usage { (fault : WordsFault) → answer_to (map string_bytes words.now) ≡ Err fault
        → (result ≡ Status.Usage) ⊎ (result ≡ Status.Memory) }
    ensures no_usage { result ≡ Status.Usage → (source.new ≡ source.old) × (out.new ≡ out.old) }
    ensures no_memory { result ≡ Status.Memory → out.new ≡ out.old }
    ensures unread { result ≡ Status.Memory → (source.new ≡ source.old)
        ⊎ ((label : Address) × (answer_to (map string_bytes words.now) ≡ Ok (Task.Chase label))
        × IsUnreadOrWhole S.ends source.old source.new) }

    // A read fault and a write fault come only if a count of faults rose.
    ensures source { SourceCause result (S.faults source.old) (S.faults source.new) }
    ensures out { OutCause result (K.faults out.old) (K.faults out.new) }

    // The end of the input is seen once, and nothing is pulled after it.
    ensures once { (job : Job) → answer_to (map string_bytes words.now) ≡ Ok (Task.Stream job)
        → S.ends source.old ≡ 0 → EndsSeen (Meaning.reads (meaning_of job)) result (S.ends source.new) }
    ensures chase_once { (label : Address) → answer_to (map string_bytes words.now) ≡ Ok (Task.Chase label)
        → ChaseSeesOneEnd result (S.ends source.old) (S.ends source.new) }

    // A job that reads nothing leaves the source, and stops only if the output fails.
    ensures idle { (job : Job) → answer_to (map string_bytes words.now) ≡ Ok (Task.Stream job)
        → Meaning.reads (meaning_of job) ≡ false
        → (source.new ≡ source.old) × ((result ≡ Status.Done) ⊎ (result ≡ Status.WriteFault)
        ⊎ (result ≡ Status.Memory)) }

    // If no count of faults rises, the job and the whole input leave one status, lack of memory aside.
    ensures status { (job : Job) (input : List ℕ) → answer_to (map string_bytes words.now) ≡ Ok (Task.Stream job)
        → S.left source.old ≡ Some input
        → ¬ Rose (S.faults source.old) (S.faults source.new) → ¬ Rose (K.faults out.old) (K.faults out.new)
        → HasStatus (meaning_of job) input result ⊎ (result ≡ Status.Memory) }

    // The same of a chase.
    ensures chase_status { (label : Address) (input : List ℕ)
        → answer_to (map string_bytes words.now) ≡ Ok (Task.Chase label)
        → S.left source.old ≡ Some input
        → ¬ Rose (S.faults source.old) (S.faults source.new) → ¬ Rose (K.faults out.old) (K.faults out.new)
        → (result ≡ chase_status_on label input) ⊎ (result ≡ Status.Memory) }
{
    let task = match read_words(alloc, words) {
        Ok(task) => task,
        Err(fault) => {
            push_note(notes, &usage_note(fault));
            return Status::of_words(fault);
        }
    };
    match &task {
        Task::Stream(job) => stream(job, source, out, notes),
        Task::Chase { label } => chase(alloc, label, source, out, notes),
    }
}
