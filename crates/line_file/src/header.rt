//! The header of a line file, and the numbers of its table. Read next: `field`.
ghost use Rattle.std.specs.Prelude.{◌≡◌};
ghost use Rattle.line_file.specs.KeptFront.{front_of, header_front};
ghost use Rattle.line_file.specs.LineFile.{head_at, head_fault, header_at, header_with, is_wrong};
ghost use Rattle.line_file.specs.KeptPieces.{is_line_length};
ghost use Rattle.line_file.specs.LineFile.{whole};
ghost use Rattle.line_file.specs.LineHeader.{IsHeader, header_bytes, system_at};

use crate::found::Found;
use byteorder::{BigEndian, ByteOrder};
use file_faults::LineFileFault;
use tc_address::{System, rate};
use vitc_reader::{MAX_LINE_LENGTH, MIN_LINE_LENGTH};

/// The four bytes with which a line file begins.
pub const MAGIC: [u8; 4] = *b"VITL";

/// Version 1, at byte 4.
pub const VERSION: u8 = 1;

/// The bytes of a header that are tested one by one. The line length follows.
pub const HEAD_LENGTH: usize = 8;

/// The bytes of a header.
pub const HEADER_LENGTH: usize = 12;

/// What a line file says of its lines.
#[derive(Clone, Copy)]
pub struct LineHeader {
    /// The system of the time code: 25 or 30 frames.
    pub system: System,
    /// How long a line lasts, from 460 to 65,535 ticks.
    pub length: u32,
}

/// What a file begins with.
#[derive(Clone, Copy)]
pub(crate) enum FoundHeader {
    /// A header.
    Whole(LineHeader),
    /// The first bytes of one.
    Short,
    /// A piece that fails its test.
    Fault(LineFileFault),
}

/// The header as bytes of a file.
pub fn line_header(header: &LineHeader) -> [u8; 12]
    requires { IsHeader header.now }
    ensures bytes { result ≡ header_bytes header.now }
    // What is written is read back.
    ensures back { header_at result ≡ whole header.now }
{
    let [v, i, t, l] = MAGIC;
    let system = rate(header.system) as u8;
    let mut bytes = [v, i, t, l, VERSION, system, 0, 0, 0, 0, 0, 0];
    BigEndian::write_u32(&mut bytes[8..], header.length);
    bytes
}

/// The header with which bytes begin.
pub(crate) fn header_in(bytes: &[u8]) -> FoundHeader
    ensures { header_front result ≡ header_at bytes.now }
{
    match head_in(bytes) {
        Found::Fault(fault) => FoundHeader::Fault(fault),
        Found::Whole if HEADER_LENGTH <= bytes.len() => {
            let length = BigEndian::read_u32(&bytes[HEAD_LENGTH..]);
            header_with(system_of_byte(bytes[5]), length)
        }
        _ => FoundHeader::Short,
    }
}

/// The head with which bytes begin: each of its bytes is judged by itself.
fn head_in(bytes: &[u8]) -> Found
    ensures { front_of result tt ≡ head_at HEAD_LENGTH 0 bytes.now }
{
    'head: for place in 0..HEAD_LENGTH {
        if bytes.len() <= place {
            return Found::Short;
        }
        if is_wrong(place, bytes[place]) {
            return Found::Fault(head_fault(place));
        }
    }
    Found::Whole
}

/// Whether a byte is not the one that its place in the head needs.
fn is_wrong(place: usize, byte: u8) -> bool
    ensures { result ≡ is_wrong place byte }
{
    match place {
        0..=3 => byte != MAGIC[place],
        4 => byte != VERSION,
        5 => system_of_byte(byte).is_none(),
        _ => byte != 0,
    }
}

/// The fault of a place in the head.
fn head_fault(place: usize) -> LineFileFault
    ensures { result ≡ head_fault place }
{
    let at = place as u64;
    match place {
        0..=3 => LineFileFault::Magic(at),
        4 => LineFileFault::Version(at),
        5 => LineFileFault::System(at),
        _ => LineFileFault::Reserved(at),
    }
}

/// The header of a system with a line length.
fn header_with(system: Option<System>, length: u32) -> FoundHeader
    ensures { header_front result ≡ header_with system length }
{
    match system {
        Some(system) if is_line_length(length) => FoundHeader::Whole(LineHeader { system, length }),
        _ => FoundHeader::Fault(LineFileFault::LineLength(HEAD_LENGTH as u64)),
    }
}

/// Whether a line may last `length` ticks.
fn is_line_length(length: u32) -> bool
    ensures { result ≡ is_line_length length }
{
    MIN_LINE_LENGTH <= length && length <= MAX_LINE_LENGTH
}

/// The system whose number in a header this is.
fn system_of_byte(byte: u8) -> Option<System>
    ensures { result ≡ system_at byte }
{
    match byte {
        25 => Some(System::F25),
        30 => Some(System::F30),
        _ => None,
    }
}
