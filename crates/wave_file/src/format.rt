//! The format of a sound file: its tracks, its rate, and the size of its samples. Read next: `sample`.
ghost use Rattle.std.specs.Prelude.{◌≡◌, ◌≤◌, ◌^◌, ◌<◌, ◌+◌, IfOk, length};
ghost use Rattle.wave_file.specs.Format.{field_fault, format_in, format_of, is_pcm};
ghost use Rattle.wave_file.specs.Format.{is_sample_size, is_track_count, is_rate, IsAsked, IsTakenFor};

use byteorder::{ByteOrder, LittleEndian};
use file_faults::WaveFault;
use limits::MAX_TRACKS;

/// The highest rate, in samples a second: 16 ticks a sample make 100,000,000 ticks a second.
pub const MAX_RATE: u32 = 6_250_000;

/// The bytes of a format chunk that are looked at, at most.
pub const FORMAT_LENGTH: u32 = 26;

/// The bytes that a format chunk has at least.
pub const MIN_FORMAT_LENGTH: u32 = 16;

/// How samples are stored in a file. The samples of all tracks at one time are a block.
#[derive(Clone, Copy)]
pub struct WaveFormat {
    /// From 1 to 64.
    pub tracks: u16,
    /// Blocks a second, from 1 to 6,250,000.
    pub rate: u32,
    /// Bytes of a block.
    pub block: u16,
    /// Bits of a sample: 8, 16, 24 or 32.
    pub bits: u16,
}

/// What is asked for of a sound file.
#[derive(Clone, Copy)]
pub struct Asked {
    /// The track, from 1 to 64.
    pub track: u32,
    /// A file of fewer samples a second is refused. From 1 on: of 1 none is.
    pub least_rate: u32,
    /// How many samples of the track are read, at most.
    pub most_samples: u64,
}

/// The format in the first bytes of a format chunk, which begin at a place; or its first field that is
/// not taken.
pub(crate) fn format_in(asked: Asked, place: u64, body: &[u8]) -> Result<WaveFormat, WaveFault>
    requires asked { IsAsked asked }
    requires length { 16 ≤ length body.now }
    requires place { place < 2 ^ 63 }
    ensures value { result ≡ format_in asked place body.now }
    ensures taken { IfOk result (λ format. IsTakenFor asked format) }
{
    let format = format_of(body);
    match field_fault(asked, place, is_pcm(body), &format) {
        Some(fault) => Err(fault),
        None => Ok(format),
    }
}

/// The fields of a format.
fn format_of(body: &[u8]) -> WaveFormat
    requires { 16 ≤ length body.now }
    ensures { result ≡ format_of body.now }
{
    WaveFormat {
        tracks: LittleEndian::read_u16(&body[2..]),
        rate: LittleEndian::read_u32(&body[4..]),
        block: LittleEndian::read_u16(&body[12..]),
        bits: LittleEndian::read_u16(&body[14..]),
    }
}

/// Whether samples are whole numbers: format 1, or 65,534 with subformat 1.
fn is_pcm(body: &[u8]) -> bool
    requires { 16 ≤ length body.now }
    ensures { result ≡ is_pcm body.now }
{
    let code = LittleEndian::read_u16(body);
    code == 1 || (code == 65_534 && 26 <= body.len() && LittleEndian::read_u16(&body[24..]) == 1)
}

/// The first field that is not taken.
fn field_fault(asked: Asked, place: u64, is_pcm: bool, format: &WaveFormat) -> Option<WaveFault>
    requires { place < 2 ^ 63 }
    ensures { result ≡ field_fault asked place is_pcm format.now }
{
    let format = *format;
    if !is_pcm {
        Some(WaveFault::Format(place))
    } else if !is_track_count(format.tracks) {
        Some(WaveFault::Format(place + 2))
    } else if !is_rate(asked.least_rate, format.rate) {
        Some(WaveFault::Format(place + 4))
    } else if 8 * u32::from(format.block) != u32::from(format.tracks) * u32::from(format.bits) {
        Some(WaveFault::Format(place + 12))
    } else if !is_sample_size(format.bits) {
        Some(WaveFault::Format(place + 14))
    } else if u32::from(format.tracks) < asked.track {
        Some(WaveFault::Track(place + 2))
    } else {
        None
    }
}

/// Whether a file may have `tracks` tracks.
fn is_track_count(tracks: u16) -> bool
    ensures { result ≡ is_track_count tracks }
{
    1 <= tracks && u32::from(tracks) <= MAX_TRACKS
}

/// Whether a file may have `rate` samples a second, if at least `least` are asked for.
fn is_rate(least: u32, rate: u32) -> bool
    ensures { result ≡ is_rate least rate }
{
    least <= rate && rate <= MAX_RATE
}

/// Whether a sample may have `bits` bits.
fn is_sample_size(bits: u16) -> bool
    ensures { result ≡ is_sample_size bits }
{
    bits == 8 || bits == 16 || bits == 24 || bits == 32
}
