//! What bytes bring on their way into samples. Read next: `sound_file`.
use tc_command::Halt;
use wave_file::WaveFormat;

/// How many samples are brought at once, at most.
pub(crate) const ROOM: usize = 2_048;

/// Room for samples that are brought at once. It keeps nothing.
pub(crate) type Room = [i16; ROOM];

/// What some bytes bring.
pub(crate) enum Brought {
    /// So many bytes were taken, and so many samples are in the room.
    Samples { bytes: usize, samples: usize },
    /// So many bytes were taken, behind which samples of this format begin.
    Begin { bytes: usize, format: WaveFormat },
    /// None were taken: they are too few, and come again with more behind them.
    Few,
    /// The input is refused among them, or its limit is passed.
    Halt(Halt),
}
