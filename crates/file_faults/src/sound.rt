//! The faults of a sound file. Read next: `sound_names`.
ghost use Rattle.std.specs.Prelude.{◌≡◌};
ghost use Rattle.file_faults.specs.Sound.{name_of, place_of};

use crate::sound_names as names;
use std::error::Error;
use std::fmt;

/// The first fault of a sound file, with the byte place, from 0, at which it is.
#[derive(Clone, Copy, Debug)]
pub enum WaveFault {
    /// The first four bytes are none of `RIFF`, `RF64` and `BW64`.
    Riff(u64),
    /// Bytes 8 to 11 are not `WAVE`.
    Wave(u64),
    /// The sizes of 64 bits are missing or cut. The place is the first letter of the chunk.
    Ds64(u64),
    /// The format is missing, cut, or none that is taken. The place is the first letter of the chunk, or
    /// that of the field.
    Format(u64),
    /// The track is not among those of the file. The place is that of their number.
    Track(u64),
    /// The input ends too early. The place is the number of its bytes.
    Truncated(u64),
}

impl fmt::Display for WaveFault {
    ghost use Rattle.std.specs.Prelude.{Some};
    ghost use Rattle.file_faults.specs.Sound.{name_of};

    ghost output = { λ fault. Some (name_of fault) };

    fn fmt<W: fmt::Write>(&self, f: &mut fmt::Formatter<W>) -> fmt::Result {
        f.write_str(self.name())
    }
}

impl Error for WaveFault {}

impl WaveFault {
    /// The name under which notes print the fault.
    pub fn name(self) -> &'static str
        ensures { result.now ≡ name_of self }
    {
        match self {
            WaveFault::Riff(_) => names::RIFF_NAME,
            WaveFault::Wave(_) => names::WAVE_NAME,
            WaveFault::Ds64(_) => names::DS64_NAME,
            WaveFault::Format(_) => names::FORMAT_NAME,
            WaveFault::Track(_) => names::TRACK_NAME,
            WaveFault::Truncated(_) => names::TRUNCATED_NAME,
        }
    }

    /// The byte place of the fault.
    pub fn place(self) -> u64
        ensures { result ≡ place_of self }
    {
        match self {
            WaveFault::Riff(place)
            | WaveFault::Wave(place)
            | WaveFault::Ds64(place)
            | WaveFault::Format(place)
            | WaveFault::Track(place)
            | WaveFault::Truncated(place) => place,
        }
    }
}
