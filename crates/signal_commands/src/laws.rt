//! What follows from the definitions alone.
ghost use Rattle.std.specs.Prelude.{◌≡◌, ◌^◌};
ghost use Rattle.tc_job.specs.PathSlicing.{SlicesPath};
ghost use Rattle.tc_job.specs.Slicing.{Slices};
ghost use Rattle.tc_job.specs.TrackPath.{SlicesTrackPath};
ghost use Rattle.tc_job.specs.WaveSlicing.{SlicesWave};
ghost use Rattle.tc_command.specs.Command.{IsCommand};
ghost use Rattle.signal_commands.specs.declared.luma_lines.TheConstants.{LINE_LENGTH};
ghost use Rattle.signal_commands.specs.declared.mtc_read.TheConstants.{MAX_BYTES};
ghost use Rattle.signal_commands.specs.declared.pcm_ltc.TheConstants.{MAX_SAMPLES};
ghost use Rattle.signal_commands.specs.declared.wav_path.TheConstants.{MAX_PATH_SAMPLES};
ghost use Rattle.signal_commands.specs.MtcRead.{along_midi};
ghost use Rattle.signal_commands.specs.PcmLtc.{along_samples};
ghost use Rattle.signal_commands.specs.PcmPath.{along_path};
ghost use Rattle.signal_commands.specs.VitcRead.{along_fields};
ghost use Rattle.signal_commands.specs.WavLtc.{along_sound_file};
ghost use Rattle.signal_commands.specs.WavPath.{along_track_path};
ghost use Rattle.signal_commands.specs.WorkedByHand.{AreCutInputsRefused, AreEventsCounted, AreFieldsCounted};
ghost use Rattle.signal_commands.specs.WorkedByHand.{AreFieldsNumbered, AreHeadersSo, IsSoundSlicedSo};

use line_file::laws::{
    answers_of_a_front_come_first, bytes_have_answers, bytes_have_one_list_of_answers,
    what_bytes_show_stays,
};
use mtc_reader::laws::earlier_events_stay;
use path_front::laws::{a_sound_has_one_list_of_intervals, what_samples_bring_so_far_comes_first};
use pcm_front::laws::intervals_of_a_front_come_first;
use tc_job::laws::a_sound_file_has_steps_from_its_least_rate_on;
use wave_file::laws::{the_rate_of_a_format_is_judged, what_a_sound_file_shows_stays};

/// Each of them is a command as any other: what it writes there is, comes first and is one, and what bytes
/// show stays.
pub fn each_signal_makes_a_command()
    ensures midi { IsCommand along_midi }
    ensures samples { (slicing : Slices) → IsCommand (along_samples slicing) }
    ensures tracks { (slicing : SlicesWave) → IsCommand (along_sound_file slicing) }
    ensures fields { IsCommand along_fields }
    ensures paths { (path : SlicesPath) → IsCommand (along_path path) }
    ensures track_paths { (path : SlicesTrackPath) → IsCommand (along_track_path path) }
{
    a_sound_has_one_list_of_intervals();
    what_samples_bring_so_far_comes_first();
    earlier_events_stay();
    intervals_of_a_front_come_first();
    what_a_sound_file_shows_stays();
    the_rate_of_a_format_is_judged();
    a_sound_file_has_steps_from_its_least_rate_on();
    answers_of_a_front_come_first();
    bytes_have_answers();
    bytes_have_one_list_of_answers();
    what_bytes_show_stays();
}

/// What was worked out by hand: the last lines, the numbers of fields, the headers, how sound is sliced, and where an
/// input may not end.
pub fn what_is_worked_by_hand()
    ensures events { AreEventsCounted }
    ensures fields { AreFieldsCounted }
    ensures numbers { AreFieldsNumbered }
    ensures headers { AreHeadersSo }
    ensures slicing { IsSoundSlicedSo }
    ensures ends { AreCutInputsRefused }
{}

/// `mtc-read` reads a thousand million bytes, and no more.
pub fn mtc_read_has_this_limit()
    ensures { MAX_BYTES ≡ 1000000000 }
{}

/// `pcm-ltc` takes a thousand million samples, and no more.
pub fn pcm_ltc_has_this_limit()
    ensures { MAX_SAMPLES ≡ 1000000000 }
{}

/// `wav-ltc .. path` takes 2 to the 37th samples, and no more.
pub fn wav_path_has_this_limit()
    ensures { MAX_PATH_SAMPLES ≡ 2 ^ 37 }
{}

/// A line that `luma-vitc` writes lasts 1,840 ticks: 115 cells of 16.
pub fn luma_vitc_writes_lines_of_this_length()
    ensures { LINE_LENGTH ≡ 1_840 }
{}
