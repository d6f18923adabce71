//! A job along its input. Read next: `tc_command/src/running.rt`, and after it the crate of the command.
ghost use Rattle.std.specs.Prelude.{◌≡◌, ◌⊎◌, ℕ, List, Some, false};
ghost use Rattle.std.specs.Io.KnownBytes.{Appends};
ghost use Rattle.tc_io.specs.Source.{Rose};
ghost use Rattle.tc_command.specs.Causes.{SourceCause, OutCause};
ghost use Rattle.tc_command.specs.Ends.{EndsSeen};
ghost use Rattle.tc_command.specs.Exchange.{Exchange, IsPulled, IsNoted};
ghost use Rattle.tc_command.specs.Meaning.{Meaning};
ghost use Rattle.tc_command.specs.WholeInput.{HasStatus};
ghost use Rattle.tc_job.specs.declared.job.Job.{Job};
ghost use Rattle.tc_top.specs.Answer.{IsAnswer};
ghost use Rattle.tc_command.specs.Told.{IsLawful, IsTold, WorksAsTold};
ghost use Rattle.tc_top.specs.Commands.{meaning_of, told_of};

use crate::reading_on::it_is_read_on;
use biphase::Profile::{Normal, Rough, Worn};
use column_command::Columns;
use frame_commands::{LtcChase, LtcFly, LtcJam, LtcMtc, LtcSpans};
use interval_commands::{LtcConsecutive, LtcConvert, LtcCounted, LtcFirm, LtcPcm, LtcRead};
use label_command::{Labels, Sum};
use made_commands::{
    Help, HelpOf, HelpStatuses, LabelOf, LtcLoad, LtcMake, Number, Version, VitcMake,
};
use signal_commands::{LumaVitc, MtcRead, PcmLtc, PcmPath, VitcRead, WavLtc, WavPath};
use tc_command::{Command, Status, Stop, push_note, stop_note, work};
use tc_io::{Sink, Source};
use tc_job::Job;
use tc_job::Witness::{Asked, Consecutive, Counted, NotAsked};

/// Works a job along its input, in fixed memory. It never answers `Usage` or `Memory`.
pub fn stream<S: Source, K: Sink, N: Sink>(
    job: &Job,
    source: &mut S,
    out: &mut K,
    notes: &mut N,
) -> Status
    // What was pulled, what was written, and the note are those of the status, and a job that is done keeps its
    // promise. Whatever the status, what was written is a front of the output of the whole input.
    ensures answer { (e : Exchange) × IsPulled (S.left source.old) (S.left source.new) e
        × Appends (K.written out.old) (K.written out.new) e.written
        × IsNoted (N.written notes.old) (N.written notes.new) (N.faults notes.old) (N.faults notes.new) e
        × IsAnswer job.now result e }
    ensures no_note { result ≡ Status.Done → notes.new ≡ notes.old }

    // What is claimed of the job's command holds: it is a command as any other, whose promise is kept and names one
    // text, and which passes no limit of its own, if it is said to have none.
    ensures told { IsTold (told_of job.now) }

    // A read fault and a write fault come only if a count of faults rose.
    ensures source { SourceCause result (S.faults source.old) (S.faults source.new) }
    ensures out { OutCause result (K.faults out.old) (K.faults out.new) }

    // The end of the input is seen once, and nothing is pulled after it.
    ensures once { S.ends source.old ≡ 0 → EndsSeen (Meaning.reads (meaning_of job.now)) result (S.ends source.new) }

    // A job that reads nothing leaves the source, and stops only if the output fails.
    ensures idle { Meaning.reads (meaning_of job.now) ≡ false → source.new ≡ source.old }
    ensures writes { Meaning.reads (meaning_of job.now) ≡ false
        → (result ≡ Status.Done) ⊎ (result ≡ Status.WriteFault) }

    // If no count of faults rises, the job and the whole input leave one status.
    ensures status { (input : List ℕ) → S.left source.old ≡ Some input
        → ¬ Rose (S.faults source.old) (S.faults source.new) → ¬ Rose (K.faults out.old) (K.faults out.new)
        → HasStatus (meaning_of job.now) input result }
{
    it_is_read_on(job);
    match work_on(job, source, out) {
        Ok(()) => Status::Done,
        Err(stop) => {
            push_note(notes, &stop_note(stop));
            Status::of_stop(stop)
        }
    }
}

/// What is claimed of each job is lawful, whatever values it has.
pub(crate) fn each_job_is_lawful()
    ensures { (job : Job) → IsLawful (told_of job) }
{
    LtcRead::is_lawful();
    LtcFirm::is_lawful();
    LtcConsecutive::is_lawful();
    LtcCounted::is_lawful();
    LtcFly::is_lawful();
    LtcSpans::is_lawful();
    LtcMtc::is_lawful();
    LtcJam::is_lawful();
    LtcChase::is_lawful();
    LtcMake::is_lawful();
    LtcConvert::is_lawful();
    LtcLoad::is_lawful();
    LtcPcm::is_lawful();
    PcmLtc::is_lawful();
    PcmPath::is_lawful();
    WavLtc::is_lawful();
    WavPath::is_lawful();
    MtcRead::is_lawful();
    VitcRead::is_lawful();
    LumaVitc::is_lawful();
    VitcMake::is_lawful();
    Number::is_lawful();
    LabelOf::is_lawful();
    Labels::is_lawful();
    Columns::is_lawful();
    Sum::is_lawful();
    Help::is_lawful();
    HelpOf::is_lawful();
    HelpStatuses::is_lawful();
    Version::is_lawful();
}

/// Works a job to its end, or to where it stops.
fn work_on<S: Source, K: Sink>(job: &Job, source: &mut S, out: &mut K) -> Result<(), Stop>
    ensures { WorksAsTold (told_of job.now) S.left S.ends S.faults K.written K.faults source.old source.new
        out.old out.new result }
{
    match job {
        Job::LtcRead => work(&LtcRead { profile: Normal }, source, out),
        Job::LtcWorn => work(&LtcRead { profile: Worn }, source, out),
        Job::LtcRough { witness: NotAsked } => work(&LtcRead { profile: Rough }, source, out),
        Job::LtcRough { witness: Asked } => work(&LtcFirm { profile: Rough }, source, out),
        Job::LtcRough {
            witness: Consecutive,
        } => work(&LtcConsecutive { profile: Rough }, source, out),
        Job::LtcRough { witness: Counted } => work(&LtcCounted { profile: Rough }, source, out),
        Job::LtcFly { flight } => work(&LtcFly { flight: *flight }, source, out),
        Job::LtcSpans { flight } => work(&LtcSpans { flight: *flight }, source, out),
        Job::LtcMtc { flight } => work(&LtcMtc { flight: *flight }, source, out),
        Job::LtcJam { jam } => work(&LtcJam { jam: *jam }, source, out),
        Job::LtcChase { run } => work(&LtcChase { run: *run }, source, out),
        Job::LtcMake { stripe } => work(&LtcMake { stripe: *stripe }, source, out),
        Job::LtcConvert { version } => work(&LtcConvert { version: *version }, source, out),
        Job::LtcLoad { run } => work(&LtcLoad { run: *run }, source, out),
        Job::LtcPcm { level } => work(&LtcPcm { level: *level }, source, out),
        Job::PcmLtc { slicing } => work(&PcmLtc { slicing: *slicing }, source, out),
        Job::PcmPath { path } => work(&PcmPath { path: *path }, source, out),
        Job::WavLtc { slicing } => work(&WavLtc { slicing: *slicing }, source, out),
        Job::WavPath { path } => work(&WavPath { path: *path }, source, out),
        Job::MtcRead => work(&MtcRead, source, out),
        Job::VitcRead => work(&VitcRead, source, out),
        Job::LumaVitc { run } => work(&LumaVitc { run: *run }, source, out),
        Job::VitcMake { stripe } => work(&VitcMake { stripe: *stripe }, source, out),
        Job::Number { label } => work(&Number { label: *label }, source, out),
        Job::LabelOf { label } => work(&LabelOf { label: *label }, source, out),
        Job::Labels { run } => work(&Labels { run: *run }, source, out),
        Job::Columns { run } => work(&Columns { run: *run }, source, out),
        Job::Sum { base } => work(&Sum { base: *base }, source, out),
        Job::Help => work(&Help, source, out),
        Job::HelpOf { page } => work(&HelpOf { page: *page }, source, out),
        Job::HelpStatuses => work(&HelpStatuses, source, out),
        Job::Version => work(&Version, source, out),
    }
}
