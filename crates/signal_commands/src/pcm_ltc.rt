//! `pcm-ltc`: an interval file of the crossings of sound. Read next: `raw_samples`, `sliced`, and then `listening`.
use crate::laws::each_signal_makes_a_command;
use crate::listener::Listener;
use crate::listening::Listening;
use crate::raw_samples::RawSamples;
use crate::sliced::{Cut, SlicedSound};
use pcm_front::laws::{bytes_are_those_of_their_samples, intervals_tell_the_crossings};
use tc_command::{Command, Stop, Way};
use tc_job::Slicing;

/// How many samples are taken, at most.
pub const MAX_SAMPLES: u64 = 1_000_000_000;

/// `pcm-ltc`: an interval file of the distances between the crossings of samples.
#[derive(Clone, Copy)]
pub struct PcmLtc {
    pub slicing: Slicing,
}

impl Command for PcmLtc {
    ghost use Rattle.signal_commands.specs.PcmLtc.{told_pcm_ltc};

    ghost told = { λ command. told_pcm_ltc command.slicing };

    fn work<W: Way>(&self, way: &mut W) -> Result<(), Stop> {
        let cut = Cut::Raw(self.slicing);
        let (listener, header) = SlicedSound::begin(&cut, None);
        let mut listening = Listening::begun(RawSamples::new(), cut, listener);
        way.read(&header, &mut listening)
    }

    /// The intervals give the crossings of all samples that there are.
    fn keeps_its_promise(&self) {
        intervals_tell_the_crossings();
        bytes_are_those_of_their_samples();
        let _fineness = self.slicing.fineness();
    }

    fn is_lawful() {
        each_signal_makes_a_command();
    }
}
