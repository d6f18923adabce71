//! `wav-ltc`: an interval file of the crossings of a track of a sound file. Read next: `sound_file`, `sliced`, and
//! then `listening`.
ghost use Rattle.std.specs.Prelude.{◌≡◌, ◌≤◌};
ghost use Rattle.signal_commands.specs.WavLtc.{asked_by};
ghost use Rattle.wave_file.specs.Format.{IsAsked};

use crate::laws::each_signal_makes_a_command;
use crate::listening::Listening;
use crate::sliced::{Cut, SlicedSound};
use crate::sound_file::SoundFile;
use pcm_front::laws::intervals_tell_the_crossings;
use tc_command::{Command, Stop, Way};
use tc_job::WaveSlicing;
use wave_file::laws::a_file_is_read_as_it_was_written;
use wave_file::{Asked, MAX_SAMPLES};

/// `wav-ltc`: an interval file of the distances between the crossings of a track.
#[derive(Clone, Copy)]
pub struct WavLtc {
    pub slicing: WaveSlicing,
}

impl Command for WavLtc {
    ghost use Rattle.signal_commands.specs.WavLtc.{told_wav_ltc};

    ghost told = { λ command. told_wav_ltc command.slicing };

    fn work<W: Way>(&self, way: &mut W) -> Result<(), Stop> {
        let file = SoundFile::new(asked(&self.slicing));
        let mut listening: Listening<SoundFile, SlicedSound> = Listening::before(
            file,
            Cut::Track(self.slicing),
        );
        way.read(&[], &mut listening)
    }

    /// A sound file that was made is read as it was made, and the intervals give the crossings of its track.
    fn keeps_its_promise(&self) {
        a_file_is_read_as_it_was_written();
        intervals_tell_the_crossings();
        let _track = self.slicing.track();
    }

    fn is_lawful() {
        each_signal_makes_a_command();
    }
}

/// What is asked of the sound file.
fn asked(slicing: &WaveSlicing) -> Asked
    ensures value { result ≡ asked_by slicing.now }
    ensures valid { IsAsked result }
    ensures track { result.track ≤ 64 }
{
    Asked {
        track: slicing.track(),
        least_rate: 1,
        most_samples: MAX_SAMPLES,
    }
}
