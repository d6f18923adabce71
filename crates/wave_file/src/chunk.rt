//! What the letters and the size of a chunk begin. Read next: `format`.
ghost use Rattle.std.specs.Prelude.{◌≡◌, ℕ, IfOk};
ghost use Rattle.wave_file.specs.Chunk.{chunk_of, data_in, extent_of, form_of, is_open, is_open_size};
ghost use Rattle.wave_file.specs.Chunk.{IsChunkFor, IsNoted};
ghost use Rattle.wave_file.specs.declared.format.Asked.{Asked};

use crate::format::{MIN_FORMAT_LENGTH, WaveFormat};
use file_faults::WaveFault;

/// `RIFF`, as a number.
pub const RIFF: u32 = 0x5249_4646;

/// `RF64`.
pub const RF64: u32 = 0x5246_3634;

/// `BW64`.
pub const BW64: u32 = 0x4257_3634;

/// `WAVE`.
pub const WAVE: u32 = 0x5741_5645;

/// `fmt `.
pub const FORMAT: u32 = 0x666d_7420;

/// `ds64`.
pub const SIZES: u32 = 0x6473_3634;

/// `data`.
pub const DATA: u32 = 0x6461_7461;

/// The bytes of `ds64` that are looked at, and that it has at least.
pub const SIZES_LENGTH: u32 = 16;

/// A size that is in `ds64`, or that is not known.
pub const NO_SIZE: u32 = 0xffff_ffff;

/// The least of the sizes about 2 to the 31st by which programs say that they do not know the length.
pub const LEAST_OPEN_SIZE: u32 = 0x7fff_0000;

/// The greatest of them.
pub const GREATEST_OPEN_SIZE: u32 = 0x8000_0000;

/// What the chunks so far say.
#[derive(Clone, Copy)]
pub struct Notes {
    /// The file is RF64 or BW64, so the size of its data may have 64 bits.
    pub is_long: bool,
    /// The size behind the first letters: how many bytes follow it.
    pub file_size: u32,
    /// The last format.
    pub format: Option<WaveFormat>,
    /// The last size of the data of 64 bits.
    pub data_size: Option<u64>,
}

/// How far data go.
#[derive(Clone, Copy)]
pub enum Extent {
    /// This number of bytes.
    Announced(u64),
    /// To the end of the input: their writer did not know.
    Open,
}

/// What a chunk is.
#[derive(Clone, Copy)]
pub(crate) enum Chunk {
    Format { size: u32 },
    Sizes { size: u32 },
    Data { format: WaveFormat, extent: Extent },
    Other { size: u32 },
}

/// Whether a file that begins with these letters has its sizes in 64 bits.
pub(crate) fn form_of(letters: u32) -> Option<bool>
    ensures { result ≡ form_of letters }
{
    match letters {
        RIFF => Some(false),
        RF64 | BW64 => Some(true),
        _ => None,
    }
}

/// Whether a size about 2 to the 31st, or the greatest one, says that the length is not known.
fn is_open_size(size: u32) -> bool
    ensures { result ≡ is_open_size size }
{
    size == NO_SIZE || (LEAST_OPEN_SIZE <= size && size <= GREATEST_OPEN_SIZE)
}

/// Whether a writer that did not know the length wrote this size of data at a place in a `RIFF` file.
fn is_open(notes: &Notes, place: u64, size: u32) -> bool
    ensures { result ≡ is_open notes.now place size }
{
    is_open_size(size) || (size == 0 && u64::from(notes.file_size) <= place)
}

/// How far data of this size at a place go, if that is said.
fn extent_of(notes: &Notes, place: u64, size: u32) -> Option<Extent>
    ensures { result ≡ extent_of notes.now place size }
{
    if !notes.is_long {
        if is_open(notes, place, size) {
            Some(Extent::Open)
        } else {
            Some(Extent::Announced(u64::from(size)))
        }
    } else if size != NO_SIZE {
        Some(Extent::Announced(u64::from(size)))
    } else {
        match notes.data_size {
            None => None,
            Some(0) => Some(Extent::Open),
            Some(long) => Some(Extent::Announced(long)),
        }
    }
}

/// Data of this size, behind these chunks.
fn data_in(notes: &Notes, place: u64, size: u32) -> Result<Chunk, WaveFault>
    ensures value { result ≡ data_in notes.now place size }
    ensures chunk { (asked : Asked) → IsNoted asked notes.now → IfOk result (λ chunk. IsChunkFor asked chunk) }
{
    match extent_of(notes, place, size) {
        None => Err(WaveFault::Ds64(place)),
        Some(extent) => match notes.format {
            None => Err(WaveFault::Format(place)),
            Some(format) => Ok(Chunk::Data { format, extent }),
        },
    }
}

/// The chunk that these letters and this size begin at a place, behind these chunks.
pub(crate) fn chunk_of(
    notes: &Notes,
    place: u64,
    letters: u32,
    size: u32,
) -> Result<Chunk, WaveFault>
    ensures value { result ≡ chunk_of notes.now place letters size }
    ensures chunk { (asked : Asked) → IsNoted asked notes.now → IfOk result (λ chunk. IsChunkFor asked chunk) }
{
    if letters == DATA {
        data_in(notes, place, size)
    } else if letters == FORMAT {
        if size < MIN_FORMAT_LENGTH {
            Err(WaveFault::Format(place))
        } else {
            Ok(Chunk::Format { size })
        }
    } else if letters == SIZES && notes.is_long {
        if size < SIZES_LENGTH {
            Err(WaveFault::Ds64(place))
        } else {
            Ok(Chunk::Sizes { size })
        }
    } else {
        Ok(Chunk::Other { size })
    }
}
