//! What follows from the definitions alone.
ghost use Rattle.std.specs.Prelude.{◌≡◌, List, ℕ, [], ◌++◌, map, false, Ok, Err};
ghost use Rattle.biphase.specs.Chain.{flat};
ghost use Rattle.tc_job.specs.declared.fault.WordsFault.{WordsFault};
ghost use Rattle.tc_job.specs.declared.job.Job.{Job};
ghost use Rattle.tc_job.specs.LineStripe.{IsLineStripe, LineStriping};
ghost use Rattle.tc_job.specs.Stripe.{IsStripe, Striping};
ghost use Rattle.vitc_reader.specs.declared.field.FieldAnswer.{FieldAnswer};
ghost use Rattle.tc_command.specs.declared.input_fault.InputFault.{InputFault};
ghost use Rattle.tc_command.specs.declared.status.Status.{Status};
ghost use Rattle.tc_command.specs.declared.stop.Stop.{Stop};
ghost use Rattle.tc_command.specs.Exchange.{Exchange};
ghost use Rattle.tc_command.specs.Meaning.{Meaning, IsInput};
ghost use Rattle.tc_command.specs.Command.{IsCommand};
ghost use Rattle.tc_command.specs.Notes.{stop_note, usage_note};
ghost use Rattle.tc_command.specs.Told.{Told};
ghost use Rattle.tc_command.specs.WholeInput.{HasStatus, status_by};
ghost use Rattle.interval_commands.specs.LtcRead.{last_line, lines};
ghost use Rattle.made_commands.specs.Made.{made, made_cells, made_events, made_header};
ghost use Rattle.made_commands.specs.MadeLines.{made_lines, made_words};
ghost use Rattle.signal_commands.specs.VitcRead.{field_report};
ghost use Rattle.tc_words.specs.Words.{answer_to};
ghost use Rattle.tc_top.specs.declared.exit.NoArguments.{NoArguments};
ghost use Rattle.tc_top.specs.declared.exit.TheConstants.{NO_ARGUMENTS};
ghost use Rattle.tc_top.specs.Exit.{exit_number};
ghost use Rattle.tc_top.specs.Answer.{EndsBy, IsRunAnswer};
ghost use Rattle.tc_top.specs.Commands.{meaning_of, told_of};
ghost use Rattle.tc_top.specs.LinesTold.{RecordingsAreWorked, SignalsAreWorked, TextsAreWorked};

use crate::streaming::each_job_is_lawful;
use direction_reader::laws::a_list_has_one_list_of_events;
use line_file::laws::bytes_have_one_list_of_answers;
use made_commands::laws::{lines_that_are_made_are_read_back, what_is_made_is_read_whole};

/// The exit numbers, one by one.
pub fn exit_numbers_are_these()
    ensures done { exit_number (Ok Status.Done) ≡ 0 }
    ensures usage { exit_number (Ok Status.Usage) ≡ 2 }
    ensures refused { exit_number (Ok Status.Refused) ≡ 3 }
    ensures read_fault { exit_number (Ok Status.ReadFault) ≡ 4 }
    ensures write_fault { exit_number (Ok Status.WriteFault) ≡ 5 }
    ensures memory { (exit_number (Ok Status.Memory) ≡ 6) × (exit_number (Err NoArguments.Memory) ≡ 6) }
    ensures limit { exit_number (Ok Status.Limit) ≡ 7 }
    ensures no_arguments { exit_number (Err NoArguments.Other) ≡ 8 }
    ensures eight { NO_ARGUMENTS ≡ 8 }
{}

/// Words that name no task are noted with their fault, and a refused input with its own; of a job that is done nothing
/// is noted.
pub fn each_end_is_noted()
    ensures usage { (words : List (List ℕ)) (e : Exchange) → IsRunAnswer words Status.Usage e → (fault : WordsFault)
        × (answer_to words ≡ Err fault) × (e.note ≡ usage_note fault) × (e.pulled ≡ []) × (e.written ≡ []) }
    ensures refused { (job : Job) (e : Exchange) → EndsBy job Status.Refused e → (fault : InputFault)
        × (e.note ≡ stop_note (Stop.Refused fault)) }
    ensures done { (job : Job) (e : Exchange) → EndsBy job Status.Done e → e.note ≡ [] }
{}

/// The words of each command work it, with their values.
pub fn each_line_works_its_command()
    ensures recordings { RecordingsAreWorked }
    ensures signals { SignalsAreWorked }
    ensures texts { TextsAreWorked }
{}

/// What holds of every command holds of each job: what it writes of some bytes comes first, whatever bytes
/// follow, each input has an output, and no other, in whatever pieces it comes, and a fault and the limits stay.
pub fn each_job_is_a_command()
    ensures { (job : Job) → IsCommand (meaning_of job) }
{
    each_job_is_lawful();
}

/// The promise of a job alone names the bytes: whoever keeps it for an input has written the same. So a body that
/// says a line or an interval otherwise breaks its promise.
pub fn a_promise_names_one_text()
    ensures { (job : Job) (pulled a b : List ℕ) → Told.promise (told_of job) pulled a
        → Told.promise (told_of job) pulled b → a ≡ b }
{
    each_job_is_lawful();
}

/// An input leaves a job one status if no call fails. A limit of the command's own comes first, and
/// if it has none, the grammar and the limit of the file settle it alone.
pub fn an_input_has_one_status()
    ensures one { (job : Job) (input : List ℕ) (a b : Status) → HasStatus (meaning_of job) input a
        → HasStatus (meaning_of job) input b → a ≡ b }
    ensures file { (job : Job) (input : List ℕ) (status : Status) → Told.has_own_limit (told_of job) ≡ false
        → HasStatus (meaning_of job) input status
        → status ≡ status_by (Meaning.verdict (meaning_of job) input) (Meaning.end_fault (meaning_of job) input) }
{
    each_job_is_lawful();
}

/// The report of `ltc-read` of what `ltc-make` makes is known: a line a frame, with its word, and the last
/// line.
pub fn what_is_made_is_reported_whole()
    ensures { (s : Striping) (written : List ℕ) → IsStripe s → Meaning.output (meaning_of Job.LtcRead) (made s) written
        → written ≡ lines (made_header s) (made_events s) ++ last_line (flat (made_cells s)) (made_events s) }
{
    what_is_made_is_read_whole();
    a_list_has_one_list_of_events();
}

/// What `vitc-make` makes is an input of `vitc-read`, and its report is known: each field is agreed with its
/// frame's word, and the field mark is 0 and then 1.
pub fn lines_that_are_made_are_reported_whole()
    ensures input { (s : LineStriping) → IsLineStripe s → IsInput (meaning_of Job.VitcRead) (made_lines s) }
    ensures report { (s : LineStriping) (written : List ℕ) → IsLineStripe s
        → Meaning.output (meaning_of Job.VitcRead) (made_lines s) written
        → written ≡ field_report (map (λ word. FieldAnswer.Agreed word) (made_words s)) }
{
    lines_that_are_made_are_read_back();
    bytes_have_one_list_of_answers();
}
