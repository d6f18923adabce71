//! What is written of a best path is a file that is read.
ghost use Rattle.std.specs.Prelude.{ℕ, List};
ghost use Rattle.pcm_front.specs.Samples.{samples_of};
ghost use Rattle.tc_command.specs.Meaning.{Meaning};
ghost use Rattle.tc_job.specs.PathSlicing.{IsPathSlicing, SlicesPath};
ghost use Rattle.tc_job.specs.TrackPath.{SlicesTrackPath};
ghost use Rattle.signal_commands.specs.PathFile.{IsPathRead, IsTrackPathRead};
ghost use Rattle.signal_commands.specs.PcmPath.{IsPathFile};
ghost use Rattle.signal_commands.specs.WavPath.{along_track_path};

use interval_file::laws::a_file_is_read_as_it_was_written;
use path_front::laws::each_interval_of_a_sound_can_be_said;
use wave_file::laws::the_rate_of_a_format_is_judged;

/// The file of a best path is read as it was written: none of its intervals is 0, and none too long.
pub fn the_file_of_a_path_is_read()
    ensures path { (p : SlicesPath) (bytes written : List ℕ) → IsPathSlicing p → IsPathFile p (samples_of bytes) written
        → IsPathRead p bytes written }
    ensures track { (t : SlicesTrackPath) (bytes written : List ℕ)
        → Meaning.output (along_track_path t) bytes written → IsTrackPathRead t bytes written }
{
    each_interval_of_a_sound_can_be_said();
    a_file_is_read_as_it_was_written();
    the_rate_of_a_format_is_judged();
}
