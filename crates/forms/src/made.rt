//! The task of a command, made of the values of its words. Read next: `made_stripe`, `made_sound` and `made_labels`,
//! and `tc_job/src/job.rt` for what the jobs do.
ghost use Rattle.std.specs.Prelude.{◌≡◌};
ghost use Rattle.forms.specs.Held.{label_at};
ghost use Rattle.forms.specs.Made.{help_in, task_in};
ghost use Rattle.forms.specs.Needs.{AreOf};
ghost use Rattle.forms.specs.Reading.{AreRead};
ghost use Rattle.forms.specs.declared.table.TheConstants.{LABEL, NUMBER};

use crate::command::Command;
use crate::held::{label_at, version_at, witness_at};
use crate::made_labels::{
    base_at, columns_of, columns_since, labels_job, labels_since, pulled_columns_since,
    pulled_labels_since,
};
use crate::made_sound::{level_of, path_slicing_of, slicing_of, track_path_of, wave_slicing_of};
use crate::made_stripe::{
    chase_of, flight_of, jam_of, line_stripe_of, load_of, luma_of, stripe_of,
};
use crate::value::Value;
use tc_address::Label;
use tc_job::{Job, Task};

/// The task of a command. The values are those of the words behind it.
#[tactic(auto, unfolding(crate::specs::Made::task_in))]
pub fn made(command: Command, values: &[Value]) -> Task
    requires { AreOf command values.now }
    ensures { result ≡ task_in command values.now }
{
    match command {
        Command::LtcRead => Task::Stream(Job::LtcRead),
        Command::LtcWorn => Task::Stream(Job::LtcWorn),
        Command::LtcRough => Task::Stream(Job::LtcRough {
            witness: witness_at(values, 0),
        }),
        Command::LtcFly => Task::Stream(Job::LtcFly {
            flight: flight_of(values),
        }),
        Command::LtcSpans => Task::Stream(Job::LtcSpans {
            flight: flight_of(values),
        }),
        Command::LtcMtc => Task::Stream(Job::LtcMtc {
            flight: flight_of(values),
        }),
        Command::LtcJam => Task::Stream(Job::LtcJam {
            jam: jam_of(values),
        }),
        Command::LtcConvert => Task::Stream(Job::LtcConvert {
            version: version_at(values, 0),
        }),
        Command::PcmPath => Task::Stream(Job::PcmPath {
            path: path_slicing_of(values),
        }),
        Command::PcmLtc => Task::Stream(Job::PcmLtc {
            slicing: slicing_of(values),
        }),
        Command::WavPath => Task::Stream(Job::WavPath {
            path: track_path_of(values),
        }),
        Command::WavLtc => Task::Stream(Job::WavLtc {
            slicing: wave_slicing_of(values),
        }),
        Command::LtcPcm => Task::Stream(Job::LtcPcm {
            level: level_of(values),
        }),
        Command::LtcMake => Task::Stream(Job::LtcMake {
            stripe: stripe_of(values),
        }),
        Command::LtcLoad => Task::Stream(Job::LtcLoad {
            run: load_of(values),
        }),
        Command::MtcRead => Task::Stream(Job::MtcRead),
        Command::Chase => Task::Chase {
            label: second_label(values),
        },
        Command::LtcChase => Task::Stream(Job::LtcChase {
            run: chase_of(values),
        }),
        Command::VitcRead => Task::Stream(Job::VitcRead),
        Command::LumaVitc => Task::Stream(Job::LumaVitc {
            run: luma_of(values),
        }),
        Command::VitcMake => Task::Stream(Job::VitcMake {
            stripe: line_stripe_of(values),
        }),
        Command::Number => Task::Stream(Job::Number {
            label: second_label(values),
        }),
        Command::Label => Task::Stream(Job::LabelOf {
            label: numbered_label(values),
        }),
        Command::Labels => Task::Stream(labels_job(values)),
        Command::LabelsSince => Task::Stream(Job::Labels {
            run: labels_since(values),
        }),
        Command::PulledLabelsSince => Task::Stream(Job::Labels {
            run: pulled_labels_since(values),
        }),
        Command::LabelColumns => Task::Stream(Job::Columns {
            run: columns_of(values),
        }),
        Command::LabelColumnsSince => Task::Stream(Job::Columns {
            run: columns_since(values),
        }),
        Command::PulledLabelColumnsSince => Task::Stream(Job::Columns {
            run: pulled_columns_since(values),
        }),
        Command::LabelSum => Task::Stream(Job::Sum {
            base: base_at(values, 0),
        }),
        Command::Help => Task::Stream(help_of(values)),
        Command::Version => Task::Stream(Job::Version),
    }
}

/// The label after its count.
#[tactic(auto, using(crate::proofs::JobsInRange::label_valid))]
fn second_label(values: &[Value]) -> Label
    requires { AreRead LABEL.now values.now }
    ensures { result ≡ label_at values.now 1 }
{
    label_at(values, 1)
}

/// The label of a number, after its count.
#[tactic(auto, using(crate::proofs::JobsInRange::number_valid))]
fn numbered_label(values: &[Value]) -> Label
    requires { AreRead NUMBER.now values.now }
    ensures { result ≡ label_at values.now 1 }
{
    label_at(values, 1)
}

/// What `help` is about.
fn help_of(values: &[Value]) -> Job
    ensures { result ≡ help_in values.now }
{
    match values.get(0) {
        Some(Value::Page(page)) => Job::HelpOf { page: *page },
        Some(_) => Job::HelpStatuses,
        None => Job::Help,
    }
}
