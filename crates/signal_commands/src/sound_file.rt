//! A sound file as a container: the samples of one of its tracks. Read next: `wave_file/src/decoder.rt`.
ghost use Rattle.std.specs.Prelude.{◌≡◌, ◌≤◌, []};
ghost use Rattle.wave_file.specs.Format.{IsAsked};
ghost use Rattle.signal_commands.specs.KeptFile.{file_kind};
ghost use Rattle.signal_commands.specs.KeptListening.{ContainerKind};

use crate::brought::{Brought, Room};
use crate::container::Container;
use tc_command::{Halt, InputFault};
use wave_file::laws::samples_are_few_and_behind_a_format;
use wave_file::{Asked, Taken, WaveDecoder};

/// A sound file on its way.
#[derive(Drop)]
pub(crate) struct SoundFile {
    decoder: WaveDecoder,
}

impl SoundFile {
    /// Before the first byte.
    pub(crate) fn new(asked: Asked) -> SoundFile
        requires asked { IsAsked asked }
        requires most { asked.track ≤ 64 }
        ensures asked { result.decoder.asked ≡ asked }
        ensures holds { ContainerKind.holds file_kind result [] }
    {
        let decoder = WaveDecoder::new(asked);
        let _told = decoder.format();
        SoundFile { decoder }
    }
}

impl Container for SoundFile {
    ghost use Rattle.signal_commands.specs.KeptFile.{file_is_good, file_kind};

    type Asked = Asked;

    ghost kind = { file_kind };

    ghost is_good = { λ s bytes holds. file_is_good s bytes holds };

    fn take(&mut self, bytes: &[u8], room: &mut Room) -> Brought {
        samples_are_few_and_behind_a_format();
        let taken = self.decoder.take(bytes, room);
        let _told = self.decoder.format();
        match taken {
            Taken::Few => Brought::Few,
            Taken::Nothing(bytes) => Brought::Samples { bytes, samples: 0 },
            Taken::Begin { count, format } => Brought::Begin {
                bytes: count,
                format,
            },
            Taken::Samples { count, samples } => Brought::Samples {
                bytes: count,
                samples,
            },
            Taken::Fault(fault) => Brought::Halt(Halt::Refused(InputFault::Sound(fault))),
            Taken::Limit => Brought::Halt(Halt::Limit),
        }
    }

    fn cut_off(&self, bytes: &[u8]) -> Option<InputFault> {
        Some(InputFault::Sound(self.decoder.cut_off(bytes)))
    }

    fn finish(&self) -> Result<(), InputFault> {
        match self.decoder.finish() {
            Ok(()) => Ok(()),
            Err(fault) => Err(InputFault::Sound(fault)),
        }
    }
}
