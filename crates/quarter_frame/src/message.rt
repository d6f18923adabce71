//! The messages of MIDI Time Code.
ghost use Rattle.std.specs.Prelude.{◌≡◌, ◌≤◌, ◌<◌, slice_index, true, false, List, [], ◌∷◌};
ghost use Rattle.tc_address.specs.Numbering.{step};
ghost use Rattle.quarter_frame.specs.Message.{code_of, full_of, pieces_of, quarter_of};
ghost use Rattle.quarter_frame.specs.Runs.{four_of};

use crate::half::Half;
use tc_address::{Count, Direction, Label, advance};

/// The status byte of a quarter frame.
const QUARTER_FRAME: u8 = 0xf1;

/// The two bits that say the count.
fn code(count: Count) -> u32
    ensures code { result ≡ code_of count }
    ensures most { result ≤ 3 }
{
    match count {
        Count::C24 => 0,
        Count::C25 => 1,
        Count::Drop30 => 2,
        Count::C30 => 3,
    }
}

/// The four bits of a piece of a label.
fn bits(label: &Label, piece: u32) -> u32
    requires { piece ≤ 7 }
    ensures bits { result ≡ slice_index (pieces_of label.now) piece }
    ensures four { result < 16 }
{
    match piece {
        0 => label.frames() % 16,
        1 => label.frames() / 16,
        2 => label.seconds() % 16,
        3 => label.seconds() / 16,
        4 => label.minutes() % 16,
        5 => label.minutes() / 16,
        6 => label.hours() % 16,
        _ => label.hours() / 16 + 2 * code(label.count()),
    }
}

/// The quarter frame message of a piece of a label.
pub fn quarter(label: &Label, piece: u32) -> [u8; 2]
    requires { piece ≤ 7 }
    ensures { result ≡ quarter_of label.now piece }
{
    [QUARTER_FRAME, (16 * piece + bits(label, piece)) as u8]
}

/// The full message of a label, to all devices.
pub fn full(label: &Label) -> [u8; 10]
    ensures { result ≡ full_of label.now }
{
    let hours = 32 * code(label.count()) + label.hours();
    let (minutes, seconds) = (label.minutes(), label.seconds());
    [
        0xf0,
        0x7f,
        0x7f,
        0x01,
        0x01,
        hours as u8,
        minutes as u8,
        seconds as u8,
        label.frames() as u8,
        0xf7,
    ]
}
