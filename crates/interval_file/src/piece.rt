//! The bytes of an interval, in each version of the file.
ghost use Rattle.std.specs.Prelude.{◌≡◌, ℕ, List, ◌≤◌, ◌<◌, ◌++◌, ◌==◌, ◌&&◌, length, drop, nat_le, Some, None};
ghost use Rattle.std.specs.Prelude.{Ok, Err, IfOk, OnErr, if◌then◌else◌};
ghost use Rattle.interval_file.specs.declared.fault.IntervalFileFault.TheVariants as fault;
ghost use Rattle.interval_file.specs.declared.header.FileVersion.TheVariants.{One};
ghost use Rattle.interval_file.specs.Piece.{interval_in, most_width, piece_width, spelling};
ghost use Rattle.limits.specs.declared.recording.TheConstants.{MAX_INTERVAL};
ghost use Rattle.interval_file.specs.Grammar.{IsFile};
ghost use Rattle.interval_file.specs.Next.{BringNext, IsNext, next_of};
ghost use Rattle.interval_file.specs.declared.header.IntervalHeader.{IntervalHeader};
ghost use Rattle.interval_file.specs.declared.piece.Next.TheVariants.{Interval};

use crate::fault::IntervalFileFault;
use crate::header::FileVersion;
use byteorder::{BigEndian, ByteOrder};
use limits::MAX_INTERVAL;

/// The least interval that version 2 spells with six bytes, in ticks.
pub const LEAST_LONG: u32 = 65_536;

/// What bytes that begin between two intervals begin with.
#[derive(Clone, Copy)]
pub enum Next {
    /// No whole interval.
    Short,
    /// An interval, in ticks, and the number of its bytes.
    Interval { ticks: u32, width: usize },
    /// An interval out of range.
    Fault(IntervalFileFault),
}

/// The most bytes of an interval.
#[inline(always)]
pub fn most_width(version: FileVersion) -> usize
    ensures { result ≡ most_width version }
{
    match version {
        FileVersion::One => 4,
        FileVersion::Two => 6,
    }
}

/// The next interval of bytes, the first of which is at this place between two intervals.
#[inline(always)]
pub fn next_interval(version: FileVersion, place: u64, bytes: &[u8]) -> Next
    ensures exact { result ≡ next_of version place bytes.now }
    ensures bounds { IsNext version place bytes.now result }
    // Behind a file that ends there, it is what the bytes bring to what the file says as a text.
    ensures text { (front : List ℕ) (header : IntervalHeader) (intervals : List ℕ) → IsFile front header intervals
        → header.version ≡ version → length front ≡ place → BringNext front header intervals bytes.now result }
{
    front_interval(version, place, bytes)
}

/// The same, by the definition alone.
#[inline(always)]
fn front_interval(version: FileVersion, place: u64, bytes: &[u8]) -> Next
    ensures { result ≡ next_of version place bytes.now }
{
    match whole_width(version, bytes) {
        None => Next::Short,
        Some(width) => match interval_in(version, place, bytes) {
            Ok(ticks) => Next::Interval { ticks, width },
            Err(fault) => Next::Fault(fault),
        },
    }
}

/// How many bytes the first interval has, if it is whole.
#[inline(always)]
pub(crate) fn whole_width(version: FileVersion, bytes: &[u8]) -> Option<usize>
    ensures { result ≡ (if nat_le (piece_width version bytes.now) (length bytes.now)
        then Some (piece_width version bytes.now) else None) }
{
    let width = match version {
        FileVersion::One => 4,
        FileVersion::Two if bytes.len() < 2 => return None,
        FileVersion::Two if BigEndian::read_u16(bytes) == 0 => 6,
        FileVersion::Two => 2,
    };
    if width <= bytes.len() {
        Some(width)
    } else {
        None
    }
}

/// The first interval, at this byte place.
#[inline(always)]
pub(crate) fn interval_in(
    version: FileVersion,
    place: u64,
    bytes: &[u8],
) -> Result<u32, IntervalFileFault>
    requires { piece_width version bytes.now ≤ length bytes.now }
    ensures exact { result ≡ interval_in version place bytes.now }
    ensures range { IfOk result (λ x. (1 ≤ x) × (x ≤ MAX_INTERVAL)) }
    // Two bytes hold no number out of range.
    ensures wide { OnErr result (piece_width version bytes.now ≡ most_width version) }
{
    match version {
        FileVersion::One => in_range(place, 1, BigEndian::read_u32(bytes)),
        FileVersion::Two => match BigEndian::read_u16(bytes) {
            0 => in_range(place, LEAST_LONG, BigEndian::read_u32(&bytes[2..])),
            short => Ok(u32::from(short)),
        },
    }
}

/// An interval of `ticks` ticks, which begins at this byte place, if it is at least `least` and in
/// range.
#[inline(always)]
fn in_range(place: u64, least: u32, ticks: u32) -> Result<u32, IntervalFileFault>
    requires { least ≤ MAX_INTERVAL }
    ensures { result ≡ (if nat_le least ticks && nat_le ticks MAX_INTERVAL then Ok ticks
        else Err (fault.Interval place)) }
{
    // One comparison tests both ends.
    if ticks.wrapping_sub(least) <= MAX_INTERVAL - least {
        Ok(ticks)
    } else {
        Err(IntervalFileFault::Interval(place))
    }
}

/// Writes an interval, of `x` ticks, to the front of the room, and answers how many bytes it has.
pub fn interval_bytes(version: FileVersion, x: u32, room: &mut [u8; 6]) -> usize
    requires least { 1 ≤ x }
    requires most { x ≤ MAX_INTERVAL }
    ensures length { result ≡ length (spelling version x) }
    ensures bytes { room.new ≡ spelling version x ++ drop (length (spelling version x)) room.old }
    // What is written is read back, whatever comes behind it.
    ensures back { (place : ℕ) (rest : List ℕ)
        → next_of version place (spelling version x ++ rest) ≡ Interval x (length (spelling version x)) }
{
    match version {
        FileVersion::One => {
            BigEndian::write_u32(room, x);
            4
        }
        FileVersion::Two if x < LEAST_LONG => {
            BigEndian::write_u16(room, x as u16);
            2
        }
        FileVersion::Two => {
            BigEndian::write_u16(room, 0);
            BigEndian::write_u32(&mut room[2..], x);
            6
        }
    }
}

/// The bytes of an interval, of `ticks`, in version 1: four, the most significant one first.
pub fn four_bytes(ticks: u32) -> [u8; 4]
    ensures { result ≡ spelling One ticks }
{
    let mut bytes = [0; 4];
    BigEndian::write_u32(&mut bytes, ticks);
    bytes
}
