//! How far a decoder has come, and what a whole piece brings. Read next: `chunk`.
ghost use Rattle.std.specs.Prelude.{◌≡◌, ℕ, ◌≤◌, ◌<◌, ◌^◌, length, drop};
ghost use Rattle.wave_file.specs.Format.{IsAsked};
ghost use Rattle.wave_file.specs.Stage.{data_stage, extent_behind, width_of};
ghost use Rattle.wave_file.specs.Stage.{HasBytes, IsStage, IsWaiting};
ghost use Rattle.wave_file.specs.Step.{IsAhead, IsStep};
ghost use Rattle.wave_file.specs.declared.stage.Stage.TheVariants as stages;
ghost use Rattle.byteorder.specs.Endian.{little_number};
ghost use Rattle.wave_file.specs.Wave.{judged_width, padded};
ghost use Rattle.wave_file.specs.Chunk.{no_notes, IsNoted};
ghost use Rattle.wave_file.specs.declared.chunk.Notes.{Notes};
ghost use Rattle.wave_file.specs.declared.format.Asked.{Asked};

use crate::chunk::{Chunk, Extent, Notes, SIZES_LENGTH, WAVE, chunk_of, form_of};
use crate::format::{Asked, FORMAT_LENGTH, WaveFormat, format_in};
use byteorder::{BigEndian, ByteOrder, LittleEndian};
use file_faults::WaveFault;

/// How many bytes are read, at most: more than any store holds.
pub const MAX_BYTES: u64 = 4_611_686_018_427_387_904;

/// How many bytes a piece has, at most: a block of 64 samples of 32 bits.
pub const MAX_PIECE: usize = 256;

/// How many samples of the track may be asked for, at most: 265 days at 48,000 samples a second.
pub const MAX_SAMPLES: u64 = 1_099_511_627_776;

/// What the next bytes are.
#[derive(Clone, Copy)]
pub enum Stage {
    /// The first four letters.
    Riff,
    /// A size and the letters `WAVE`.
    Wave {
        is_long: bool,
    },
    /// `skip` bytes of a chunk, and then the letters and the size of the next one.
    Chunk {
        skip: u64,
    },
    /// The bytes of a format chunk.
    Format {
        size: u32,
    },
    /// The bytes of a chunk of sizes.
    Sizes {
        size: u32,
    },
    /// Blocks of data. `room` samples are within the limit.
    Data {
        format: WaveFormat,
        extent: Extent,
        room: u64,
    },
    /// `left` bytes of data that are no block, and what follows the data.
    Tail {
        format: WaveFormat,
        left: u64,
    },
}

/// What a whole piece brings.
#[derive(Clone, Copy)]
pub(crate) enum Step {
    /// Another stage.
    Next { notes: Notes, stage: Stage },
    /// The data.
    Begin { format: WaveFormat, stage: Stage },
    /// The first fault.
    Fault(WaveFault),
}

/// What is ahead at a stage.
#[derive(Clone, Copy)]
pub(crate) enum Ahead {
    /// Bytes that are passed over: so many, and what the bytes behind them are.
    Passed {
        count: usize,
        stage: Stage,
    },
    /// Blocks of data.
    Blocks {
        format: WaveFormat,
        extent: Extent,
        room: u64,
    },
    /// A piece that is judged when it is whole.
    Piece,
}

/// How many bytes the next piece has. A byte that is passed over is a piece by itself.
pub(crate) fn width_of(stage: &Stage) -> usize
    ensures { result ≡ width_of stage.now }
{
    match *stage {
        Stage::Riff => 4,
        Stage::Wave { .. } => 8,
        Stage::Chunk { skip } => { if skip == 0 { 8 } else { 1 } }
        Stage::Format { size } => {
            if size < FORMAT_LENGTH {
                size as usize
            } else {
                FORMAT_LENGTH as usize
            }
        }
        Stage::Sizes { .. } => SIZES_LENGTH as usize,
        Stage::Data { format, .. } => usize::from(format.block),
        Stage::Tail { .. } => 1,
    }
}

/// The stage before data. Announced bytes that are no whole block give no sample.
pub(crate) fn data_stage(format: WaveFormat, extent: Extent, room: u64) -> Stage
    ensures { result ≡ data_stage format extent room }
{
    match extent {
        Extent::Announced(left) => {
            if left < u64::from(format.block) {
                Stage::Tail { format, left }
            } else {
                Stage::Data {
                    format,
                    extent,
                    room,
                }
            }
        }
        Extent::Open => Stage::Data {
            format,
            extent,
            room,
        },
    }
}

/// What is ahead at a stage in `length` bytes.
pub(crate) fn next_in(stage: &Stage, length: usize) -> Ahead
    requires { 1 ≤ length }
    ensures { IsAhead stage.now length result }
{
    match *stage {
        Stage::Chunk { skip } if skip != 0 => {
            if skip <= length as u64 {
                Ahead::Passed {
                    count: skip as usize,
                    stage: Stage::Chunk { skip: 0 },
                }
            } else {
                Ahead::Passed {
                    count: length,
                    stage: Stage::Chunk {
                        skip: skip - length as u64,
                    },
                }
            }
        }
        Stage::Data {
            format,
            extent,
            room,
        } => Ahead::Blocks {
            format,
            extent,
            room,
        },
        Stage::Tail { format, left } => Ahead::Passed {
            count: length,
            stage: Stage::Tail {
                format,
                left: left.saturating_sub(length as u64),
            },
        },
        _ => Ahead::Piece,
    }
}

/// What a whole piece at a place brings.
pub(crate) fn step_over(
    asked: Asked,
    notes: &Notes,
    stage: &Stage,
    place: u64,
    piece: &[u8],
) -> Step
    requires asked { IsAsked asked }
    requires notes { IsNoted asked notes.now }
    requires stage { IsStage asked place stage.now }
    requires waiting { IsWaiting stage.now }
    requires place { place < 2 ^ 62 }
    requires piece { length piece.now ≡ width_of stage.now }
    ensures { IsStep asked notes.now place stage.now piece.now result }
{
    match *stage {
        Stage::Riff => behind_form(piece),
        Stage::Wave { is_long } => behind_wave(is_long, piece),
        Stage::Chunk { .. } => behind_head(asked, notes, place, piece),
        Stage::Format { size } => behind_format(asked, notes, place, size, piece),
        Stage::Sizes { size } => behind_sizes(notes, size, piece),
        Stage::Data { .. } | Stage::Tail { .. } => unreachable!(),
    }
}

/// What the first four letters bring.
fn behind_form(piece: &[u8]) -> Step
    requires { length piece.now ≡ 4 }
    ensures { (asked : Asked) (notes : Notes) → IsStep asked notes 0 stages.Riff piece.now result }
{
    match form_of(BigEndian::read_u32(piece)) {
        None => Step::Fault(WaveFault::Riff(0)),
        Some(is_long) => Step::Next {
            notes: no_notes(is_long, 0),
            stage: Stage::Wave { is_long },
        },
    }
}

/// What the eight bytes behind them bring.
fn behind_wave(is_long: bool, piece: &[u8]) -> Step
    requires { length piece.now ≡ 8 }
    ensures { (asked : Asked) (notes : Notes) → IsStep asked notes 4 (stages.Wave is_long) piece.now result }
{
    if BigEndian::read_u32(&piece[4..]) == WAVE {
        Step::Next {
            notes: no_notes(is_long, LittleEndian::read_u32(piece)),
            stage: Stage::Chunk { skip: 0 },
        }
    } else {
        Step::Fault(WaveFault::Wave(8))
    }
}

/// What the letters and the size of a chunk bring.
fn behind_head(asked: Asked, notes: &Notes, place: u64, piece: &[u8]) -> Step
    requires asked { IsAsked asked }
    requires noted { IsNoted asked notes.now }
    requires place { place < 2 ^ 62 }
    requires piece { length piece.now ≡ 8 }
    ensures { IsStep asked notes.now place (stages.Chunk 0) piece.now result }
{
    match chunk_of(notes, place, BigEndian::read_u32(piece), size_in(piece)) {
        Err(fault) => Step::Fault(fault),
        Ok(Chunk::Data { format, extent }) => Step::Begin {
            format,
            stage: data_stage(format, extent, asked.most_samples),
        },
        Ok(Chunk::Format { size }) => Step::Next {
            notes: *notes,
            stage: Stage::Format { size },
        },
        Ok(Chunk::Sizes { size }) => Step::Next {
            notes: *notes,
            stage: Stage::Sizes { size },
        },
        Ok(Chunk::Other { size }) => Step::Next {
            notes: *notes,
            stage: Stage::Chunk { skip: padded(size) },
        },
    }
}

/// What the bytes of a format chunk bring.
fn behind_format(asked: Asked, notes: &Notes, place: u64, size: u32, piece: &[u8]) -> Step
    requires asked { IsAsked asked }
    requires place { place < 2 ^ 62 }
    requires least { 16 ≤ size }
    requires piece { length piece.now ≡ judged_width size }
    ensures { IsStep asked notes.now place (stages.Format size) piece.now result }
{
    match format_in(asked, place, piece) {
        Err(fault) => Step::Fault(fault),
        Ok(format) => Step::Next {
            notes: Notes {
                is_long: notes.is_long,
                file_size: notes.file_size,
                format: Some(format),
                data_size: notes.data_size,
            },
            stage: Stage::Chunk {
                skip: padded(size) - piece.len() as u64,
            },
        },
    }
}

/// What the bytes of a chunk of sizes bring.
fn behind_sizes(notes: &Notes, size: u32, piece: &[u8]) -> Step
    requires least { 16 ≤ size }
    requires piece { length piece.now ≡ 16 }
    ensures { (asked : Asked) (place : ℕ) → IsStep asked notes.now place (stages.Sizes size) piece.now result }
{
    Step::Next {
        notes: Notes {
            is_long: notes.is_long,
            file_size: notes.file_size,
            format: notes.format,
            data_size: Some(long_size_in(piece)),
        },
        stage: Stage::Chunk {
            skip: padded(size) - 16,
        },
    }
}

/// The size of a chunk, behind its letters.
fn size_in(head: &[u8]) -> u32
    requires { 8 ≤ length head.now }
    ensures { result ≡ little_number 4 (drop 4 head.now) }
{
    LittleEndian::read_u32(&head[4..])
}

/// The size of data of 64 bits, in a chunk of sizes.
fn long_size_in(body: &[u8]) -> u64
    requires { 16 ≤ length body.now }
    ensures { result ≡ little_number 8 (drop 8 body.now) }
{
    LittleEndian::read_u64(&body[8..])
}

/// How far data go behind `count` of their bytes.
pub(crate) fn behind(extent: Extent, count: u64) -> Extent
    requires { HasBytes count extent }
    ensures { result ≡ extent_behind extent count }
{
    match extent {
        Extent::Announced(left) => Extent::Announced(left - count),
        Extent::Open => Extent::Open,
    }
}

/// The bytes of a chunk with the one of padding that makes their number even.
fn padded(size: u32) -> u64
    ensures { result ≡ padded size }
{
    u64::from(size) + u64::from(size % 2)
}

/// Of no chunks.
fn no_notes(is_long: bool, file_size: u32) -> Notes
    ensures { result ≡ no_notes is_long file_size }
{
    Notes {
        is_long,
        file_size,
        format: None,
        data_size: None,
    }
}
