//! The bytes that a cell of the table says. Read next: `case`.
ghost use Rattle.std.specs.Prelude.{◌≡◌, ◌<◌, ℕ, Some, IfSome};
ghost use Rattle.std.specs.Option.{option_copied};
ghost use Rattle.tc_conformance.specs.Digit.{character_of};

use crate::trial::{Runner, Trial, words_of};
use std::alloc::{AllocError, Global};
use std::{fs, io};

/// The bytes of a cell: `-` for none, `=TEXT`, `@FILE` or `@FILE:LENGTH`, `tc WORDS | WORDS` for what these
/// commands write, or else bytes in hexadecimal with repetitions, as `f7ff 0000*24`. Nothing if it says none.
pub fn bytes_of(rt: &HostRuntime, runner: &mut Runner, cell: &str) -> io::Result<Option<Vec<u8>>> {
    let alloc = rt.alloc();
    if cell == "-" {
        return Ok(Some(Vec::new(alloc)));
    }
    if let Some(text) = cell.strip_prefix("=") {
        return Ok(Some(text_of(alloc, text)?));
    }
    if let Some(place) = cell.strip_prefix("@") {
        return front_of(rt, place);
    }
    if let Some(commands) = cell.strip_prefix("tc ") {
        return Ok(Some(written_by(alloc, runner, commands)?));
    }
    Ok(spelled(alloc, cell)?)
}

/// A text in which `\n` stands for the end of a line.
fn text_of(alloc: Global, text: &str) -> Result<Vec<u8>, AllocError> {
    let mut bytes = Vec::new(alloc);
    for (place, line) in text.split("\\n").enumerate() {
        if place > 0 {
            bytes.push(b'\n')?;
        }
        bytes.extend_from_slice(line.as_bytes())?;
    }
    Ok(bytes)
}

/// A file, or its first bytes.
fn front_of(rt: &HostRuntime, place: &str) -> io::Result<Option<Vec<u8>>> {
    match place.split_once(":") {
        None => Ok(Some(fs::read(rt, place)?)),
        Some((name, length)) => {
            let Ok(length) = length.parse::<usize>() else {
                return Ok(None);
            };
            let mut bytes = fs::read(rt, name)?;
            if length > bytes.len() {
                return Ok(None);
            }
            bytes.truncate(length);
            Ok(Some(bytes))
        }
    }
}

/// What commands write, each of which reads what the one before it wrote.
fn written_by(alloc: Global, runner: &mut Runner, commands: &str) -> Result<Vec<u8>, AllocError> {
    let mut bytes = Vec::new(alloc);
    for command in commands.split(" | ") {
        let words = words_of(alloc, command)?;
        let ended = runner.run(&Trial::new(&words, &bytes, MADE))?;
        bytes = ended.output;
    }
    Ok(bytes)
}

/// The room for what a command of a cell writes.
const MADE: usize = 1_000_000;

/// Bytes in hexadecimal. A part may be repeated.
fn spelled(alloc: Global, cell: &str) -> Result<Option<Vec<u8>>, AllocError> {
    let mut bytes = Vec::new(alloc);
    for part in cell.split(" ") {
        let (digits, times) = match part.split_once("*") {
            None => (part, "1"),
            Some(pair) => pair,
        };
        let (Ok(times), Some(piece)) = (times.parse::<u32>(), pairs_of(alloc, digits)?) else {
            return Ok(None);
        };
        for _ in 0..times {
            bytes.extend_from_slice(&piece)?;
        }
    }
    Ok(Some(bytes))
}

/// The bytes of pairs of digits.
fn pairs_of(alloc: Global, digits: &str) -> Result<Option<Vec<u8>>, AllocError> {
    let mut bytes = Vec::new(alloc);
    for pair in digits.as_bytes().chunks(2) {
        let (Some(high), Some(low)) = (digit_of(pair.first()), digit_of(pair.get(1))) else {
            return Ok(None);
        };
        bytes.push(high * 16 + low)?;
    }
    Ok(Some(bytes))
}

/// The value of a digit.
fn digit_of(digit: Option<&u8>) -> Option<u8>
    ensures below { IfSome result (λ value. value < 16) }
    ensures reads { IfSome result (λ value. option_copied digit.entry ≡ Some (character_of value)) }
    ensures only { (value : ℕ) → value < 16 → option_copied digit.entry ≡ Some (character_of value)
        → result ≡ Some value }
{
    match digit {
        Some(b'0'..=b'9') => Some(*digit? - b'0'),
        Some(b'a'..=b'f') => Some(*digit? - b'a' + 10),
        _ => None,
    }
}
