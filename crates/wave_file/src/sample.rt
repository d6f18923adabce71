//! The sample of a track in a block. Read next: `file_faults/src/sound.rt`.
ghost use Rattle.std.specs.Prelude.{◌≡◌, ◌≤◌, length};
ghost use Rattle.wave_file.specs.Format.{sample_in, IsTakenFor};

use crate::format::{Asked, WaveFormat};
use byteorder::{ByteOrder, LittleEndian};

/// The upper 16 bits of the sample of a track, from 1, in a block.
pub(crate) fn sample_in(format: &WaveFormat, asked: Asked, block: &[u8]) -> i16
    requires taken { IsTakenFor asked format.now }
    requires block { format.now.block ≤ length block.now }
    ensures { result ≡ sample_in format.now asked block.now }
{
    let width = usize::from(format.bits / 8);
    let track = asked.track as usize;
    if width == 1 {
        (256 * i32::from(block[track - 1]) - 32_768) as i16
    } else {
        LittleEndian::read_i16(&block[track * width - 2..])
    }
}
