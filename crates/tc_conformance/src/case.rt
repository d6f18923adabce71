//! A row of the table: what goes into a run, and what has to come out. Read next: `sweeps`.
use crate::cell::bytes_of;
use crate::trial::{Runner, Trial, words_of};
use std::alloc::{AllocError, Global};
use std::io;

/// The status of a run whose source failed.
pub const READ_FAULT: u8 = 4;

/// The most that one pull gives.
pub const LONGEST_PULL: usize = 4096;

/// A case.
#[derive(Drop)]
pub struct Case {
    pub words: Vec<String>,
    pub input: Vec<u8>,
    /// Whether nothing may be pulled.
    pub is_unread: bool,
    pub status: u8,
    pub note: Vec<u8>,
    pub output: Vec<u8>,
    /// How many bytes a pull gives when each push fails in turn.
    pub pieces: Vec<usize>,
    /// How much of the output is written before each push of that run.
    pub pushes: Vec<usize>,
}

impl Case {
    /// Reads the cells of a row behind the name.
    pub fn read(rt: &HostRuntime, runner: &mut Runner, cells: &[&str]) -> io::Result<Option<Case>> {
        let [words, input, status, note, output, pieces, pushes] = cells else {
            return Ok(None);
        };
        let alloc = rt.alloc();
        let is_unread = *input == "none";
        let given = if is_unread { "-" } else { *input };
        let (Some(input), Some(output), Ok(status)) = (
            bytes_of(rt, runner, given)?,
            bytes_of(rt, runner, output)?,
            status.parse::<u8>(),
        ) else {
            return Ok(None);
        };
        Ok(Some(Case {
            words: words_of(alloc, words)?,
            input,
            is_unread,
            status,
            note: note_of(alloc, note)?,
            output,
            pieces: numbers_of(alloc, pieces)?,
            pushes: numbers_of(alloc, pushes)?,
        }))
    }
}

/// A note's line, or none.
fn note_of(alloc: Global, cell: &str) -> Result<Vec<u8>, AllocError> {
    let mut note = Vec::new(alloc);
    if cell != "-" {
        note.extend_from_slice(cell.as_bytes())?;
        note.push(b'\n')?;
    }
    Ok(note)
}

/// The numbers of a cell; what is none is left out.
fn numbers_of(alloc: Global, cell: &str) -> Result<Vec<usize>, AllocError> {
    let mut numbers = Vec::new(alloc);
    for number in cell.split_ascii_whitespace() {
        if let Ok(number) = number.parse::<usize>() {
            numbers.push(number)?;
        }
    }
    Ok(numbers)
}

impl Case {
    /// The run whose pulls give `piece` bytes each, and in which nothing else fails than what the row says: if
    /// nothing may be pulled the first pull fails, and if the status is a read fault the one behind the input.
    pub fn trial<'a>(&'a self, pieces: &'a [usize; 1]) -> Trial<'a> {
        let [piece] = *pieces;
        let failing_pull = if self.is_unread {
            Some(1)
        } else if self.status == READ_FAULT {
            Some(pull_behind(self.input.len(), piece))
        } else {
            None
        };
        Trial {
            pieces,
            failing_pull,
            ..Trial::new(
                &self.words,
                &self.input,
                self.output.len().saturating_add(64),
            )
        }
    }
}

/// The number of the pull behind `length` bytes.
pub fn pull_behind(length: usize, piece: usize) -> u64 {
    (length.div_ceil(piece.clamp(1, LONGEST_PULL)) as u64).saturating_add(1)
}
