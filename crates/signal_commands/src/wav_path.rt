//! `wav-ltc .. path`: an interval file of the cells of the best path through a track of a sound file. Read next:
//! `sound_file`, `path_sound`, and then `listening`.
ghost use Rattle.std.specs.Prelude.{◌≡◌, ◌≤◌};
ghost use Rattle.signal_commands.specs.WavPath.{asked_for_path};
ghost use Rattle.wave_file.specs.Format.{IsAsked};

use crate::laws::each_signal_makes_a_command;
use crate::listening::Listening;
use crate::path_sound::{PathSound, PathWords};
use crate::sound_file::SoundFile;
use tc_command::{Command, Stop, Way};
use tc_job::TrackPath;
use wave_file::Asked;

/// How many samples of a track are heard, at most: 33 days at 48,000 samples a second.
pub const MAX_PATH_SAMPLES: u64 = 137_438_953_472;

/// `wav-ltc .. path`: an interval file of the cells of the best path through a track.
#[derive(Clone, Copy)]
pub struct WavPath {
    pub path: TrackPath,
}

impl Command for WavPath {
    ghost use Rattle.signal_commands.specs.WavPath.{told_wav_path};

    ghost told = { λ command. told_wav_path command.path };

    fn work<W: Way>(&self, way: &mut W) -> Result<(), Stop> {
        let file = SoundFile::new(asked(&self.path));
        let mut listening: Listening<SoundFile, PathSound> = Listening::before(
            file,
            PathWords::Track(self.path),
        );
        way.read(&[], &mut listening)
    }

    fn keeps_its_promise(&self) {}

    fn is_lawful() {
        each_signal_makes_a_command();
    }
}

/// What is asked of the sound file.
fn asked(path: &TrackPath) -> Asked
    ensures value { result ≡ asked_for_path path.now }
    ensures valid { IsAsked result }
    ensures track { result.track ≤ 64 }
{
    Asked {
        track: path.track(),
        least_rate: path.least_rate(),
        most_samples: MAX_PATH_SAMPLES,
    }
}
