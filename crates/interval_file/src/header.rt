//! The header of an interval file, and the numbers of its table. Read next: `piece`.
ghost use Rattle.std.specs.Prelude.{◌≡◌, ◌<◌, ◌≤◌, [], Some, length, take};
ghost use Rattle.interval_file.specs.Contents.{first_wrong, header_of};
ghost use Rattle.interval_file.specs.Front.{BeginAs};
ghost use Rattle.interval_file.specs.Grammar.{fault_at};
ghost use Rattle.interval_file.specs.Recording.{recording_of};
ghost use Rattle.tc_io.specs.Verdict.{good};
ghost use Rattle.interval_file.specs.IntervalHeader.{IsTickRate, header_bytes, system_at, version_at, version_byte};

use crate::fault::IntervalFileFault;
use byteorder::{BigEndian, ByteOrder};
use limits::MAX_TICK_RATE;
use tc_address::{System, rate};

/// The four bytes with which an interval file begins.
pub const MAGIC: [u8; 4] = *b"LTCI";

/// Version 1, at byte 4.
pub const VERSION_ONE: u8 = 1;

/// Version 2, at byte 4.
pub const VERSION_TWO: u8 = 2;

/// The bytes of a header that are tested one by one. The tick rate follows.
pub const HEAD_LENGTH: u64 = 8;

/// The bytes of a header.
pub const HEADER_LENGTH: u64 = 12;

/// How a file spells its intervals: each with four bytes, or with two if it fits in two.
#[derive(Clone, Copy)]
pub enum FileVersion {
    /// Four bytes an interval.
    One,
    /// Two bytes an interval below 65,536, and six for a greater one.
    Two,
}

/// What an interval file says of its recording, and how it spells its intervals.
#[derive(Clone, Copy)]
pub struct IntervalHeader {
    /// The version of the file.
    pub version: FileVersion,
    /// The system of the time code.
    pub system: System,
    /// Ticks of the recorder's clock in a second, from 1 to 100,000,000.
    pub tick_rate: u32,
}

/// The header that bytes from the front of a file begin with, or its first fault, as soon as the byte that shows it is
/// there. None says that more bytes are wanted.
pub fn front_header(bytes: &[u8]) -> Result<Option<IntervalHeader>, IntervalFileFault>
    ensures { BeginAs bytes.now result }
{
    if let Some(fault) = first_wrong(bytes) {
        return Err(fault);
    }
    if bytes.len() < HEADER_LENGTH as usize {
        return Ok(None);
    }
    match header_of(bytes) {
        Some(header) => Ok(Some(header)),
        None => Err(IntervalFileFault::TickRate(HEAD_LENGTH)),
    }
}

/// The fault of the first of the header's first eight bytes that may not stand.
fn first_wrong(bytes: &[u8]) -> Option<IntervalFileFault>
    ensures { result ≡ first_wrong 0 (take HEAD_LENGTH bytes.now) }
{
    let head = bytes.len().min(HEAD_LENGTH as usize);
    let mut place = 0;
    'head: while place < head {
        if let Some(fault) = fault_at(place as u64, bytes[place]) {
            return Some(fault);
        }
        place += 1;
    }
    None
}

/// The fault of a byte, where it may not stand at this place of the first eight.
fn fault_at(place: u64, byte: u8) -> Option<IntervalFileFault>
    requires { place < HEAD_LENGTH }
    ensures { result ≡ fault_at place byte }
{
    match place {
        0..=3 if byte != MAGIC[place as usize] => Some(IntervalFileFault::Magic(place)),
        4 if version_of_byte(byte).is_none() => Some(IntervalFileFault::Version(place)),
        5 if system_of_byte(byte).is_none() => Some(IntervalFileFault::System(place)),
        6..=7 if byte != 0 => Some(IntervalFileFault::Reserved(place)),
        _ => None,
    }
}

/// The header in the first twelve bytes, if its version and its system are known and its tick rate is in range.
fn header_of(bytes: &[u8]) -> Option<IntervalHeader>
    requires { HEADER_LENGTH ≤ length bytes.now }
    ensures { result ≡ header_of bytes.now }
{
    let tick_rate = BigEndian::read_u32(&bytes[HEAD_LENGTH as usize..]);
    match (version_of_byte(bytes[4]), system_of_byte(bytes[5])) {
        (Some(version), Some(system)) if 1 <= tick_rate && tick_rate <= MAX_TICK_RATE => {
            Some(IntervalHeader {
                version,
                system,
                tick_rate,
            })
        }
        _ => None,
    }
}

/// The header as bytes of a file.
pub fn interval_header(header: &IntervalHeader) -> [u8; 12]
    requires { IsTickRate header.now.tick_rate }
    ensures bytes { result ≡ header_bytes header.now }
    // What is written is read back.
    ensures back { recording_of result ≡ record { header = Some header.now; intervals = []; verdict = good } }
{
    let [l, t, c, i] = MAGIC;
    let version = version_byte(header.version);
    let system = rate(header.system) as u8;
    let mut bytes = [l, t, c, i, version, system, 0, 0, 0, 0, 0, 0];
    BigEndian::write_u32(&mut bytes[8..], header.tick_rate);
    bytes
}

/// The version as a header has it.
fn version_byte(version: FileVersion) -> u8
    ensures { result ≡ version_byte version }
{
    match version {
        FileVersion::One => VERSION_ONE,
        FileVersion::Two => VERSION_TWO,
    }
}

/// The version whose number in a header this is.
fn version_of_byte(byte: u8) -> Option<FileVersion>
    ensures { result ≡ version_at byte }
{
    match byte {
        VERSION_ONE => Some(FileVersion::One),
        VERSION_TWO => Some(FileVersion::Two),
        _ => None,
    }
}

/// The system whose number in a header this is.
fn system_of_byte(byte: u8) -> Option<System>
    ensures { result ≡ system_at byte }
{
    match byte {
        24 => Some(System::F24),
        25 => Some(System::F25),
        30 => Some(System::F30),
        _ => None,
    }
}
