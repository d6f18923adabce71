//! What a further command makes of what a job wrote is what is promised of it. Read next: `laws`.
ghost use Rattle.std.specs.Prelude.{◌≡◌, ℕ, ◌<◌, ◌^◌};
ghost use Rattle.tc_command.specs.Told.{KeepsPromise};
ghost use Rattle.tc_job.specs.declared.job.Job.{Job};
ghost use Rattle.tc_job.specs.LumaRun.{LumaReading};
ghost use Rattle.tc_job.specs.PathSlicing.{IsPathSlicing, SlicesPath};
ghost use Rattle.signal_commands.specs.LumaVitc.{told_luma_vitc};
ghost use Rattle.tc_top.specs.Promises.{IsReadOn};

use direction_reader::laws::a_list_has_one_list_of_events;
use forms::laws::each_page_lists_what_is_taken;
use frame_commands::laws::what_is_heard_has_labels_of_its_system;
use interval_file::laws::{a_file_is_read_as_it_was_written, bytes_are_read_as_the_text_says};
use label_command::laws::answers_are_answered_again;
use line_file::laws::{bytes_have_answers, bytes_have_one_list_of_answers};
use made_commands::laws::help_tells_of_each_status;
use pcm_front::laws::{
    a_sound_is_sliced_at_a_threshold_that_follows, a_sound_is_sliced_into_its_intervals,
    samples_are_read_as_they_were_written, sums_of_one_are_the_samples,
};
use quarter_frame::laws::what_is_sent_is_read_back;
use signal_commands::LumaVitc;
use signal_commands::path_laws::the_file_of_a_path_is_read;
use tc_address::laws::number_and_label_are_inverse;
use tc_command::Command;
use tc_job::Job;
use tc_words::laws::{
    each_command_has_its_usage, each_form_is_taken, each_page_tells_what_is_read,
};

/// What is sent is read as the frames of the file, the report of a copy is that of its frames, what is sounded is
/// sliced into its intervals again, the file of a best path is one that is read, the lines of a picture are read as its
/// fields, what is told of labels and of commands is taken as words, and what is answered to labels is answered again.
pub(crate) fn it_is_read_on(job: &Job)
    ensures { IsReadOn job.now }
{
    a_list_has_one_list_of_events();
    a_file_is_read_as_it_was_written();
    what_is_heard_has_labels_of_its_system();
    what_is_sent_is_read_back();
    number_and_label_are_inverse();
    each_command_has_its_usage();
    each_form_is_taken();
    each_page_lists_what_is_taken();
    each_page_tells_what_is_read();
    help_tells_of_each_status();
    bytes_are_read_as_the_text_says();
    samples_are_read_as_they_were_written();
    a_sound_is_sliced_into_its_intervals();
    a_sound_is_sliced_at_a_threshold_that_follows();
    sums_of_one_are_the_samples();
    answers_are_answered_again();
    bytes_have_answers();
    bytes_have_one_list_of_answers();
    the_file_of_a_path_is_read();
    has_a_level_of_samples(job);
    has_a_path(job);
    has_told_pixels(job);
}

/// The level of made sound is one of a sample.
fn has_a_level_of_samples(job: &Job)
    ensures { (level : ℕ) → job.now ≡ Job.LtcPcm level → level < 2 ^ 15 }
{
    if let Job::LtcPcm { level } = job {
        let _level = level.level();
    }
}

/// The path of a job has values in range.
fn has_a_path(job: &Job)
    ensures { (path : SlicesPath) → job.now ≡ Job.PcmPath path → IsPathSlicing path }
{
    if let Job::PcmPath { path } = job {
        let _ticks = path.ticks();
    }
}

/// What is promised of the pixels of a job is kept.
fn has_told_pixels(job: &Job)
    ensures { (luma : LumaReading) → job.now ≡ Job.LumaVitc luma → KeepsPromise (told_luma_vitc luma) }
{
    if let Job::LumaVitc { run } = job {
        LumaVitc { run: *run }.keeps_its_promise();
    }
}
