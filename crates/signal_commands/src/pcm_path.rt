//! `pcm-ltc .. path`: an interval file of the cells of the best path through a sound. Read next: `raw_samples`,
//! `path_sound`, and then `listening`.
use crate::laws::each_signal_makes_a_command;
use crate::listener::Listener;
use crate::listening::Listening;
use crate::path_sound::{PathSound, PathWords};
use crate::raw_samples::RawSamples;
use path_front::laws::{a_sound_has_one_list_of_intervals, the_intervals_of_a_sound_last_as_long};
use pcm_front::laws::bytes_are_those_of_their_samples;
use tc_command::{Command, Stop, Way};
use tc_job::PathSlicing;

/// `pcm-ltc .. path`: an interval file of the cells of the best path through samples.
#[derive(Clone, Copy)]
pub struct PcmPath {
    pub path: PathSlicing,
}

impl Command for PcmPath {
    ghost use Rattle.signal_commands.specs.PcmPath.{told_pcm_path};

    ghost told = { λ command. told_pcm_path command.path };

    fn work<W: Way>(&self, way: &mut W) -> Result<(), Stop> {
        let words = PathWords::Raw(self.path);
        let (listener, header) = PathSound::begin(&words, None);
        let mut listening = Listening::begun(RawSamples::new(), words, listener);
        way.read(&header, &mut listening)
    }

    /// The intervals last as long as the steps of the samples.
    fn keeps_its_promise(&self) {
        a_sound_has_one_list_of_intervals();
        the_intervals_of_a_sound_last_as_long();
        bytes_are_those_of_their_samples();
        let _ticks = self.path.ticks();
    }

    fn is_lawful() {
        each_signal_makes_a_command();
    }
}
