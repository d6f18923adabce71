//! What is compared of a case: its run as a whole, in pieces, with calls that fail in turn, with sinks that are
//! full, and with inputs that end early. Read next: `main`.
ghost use Rattle.std.specs.Prelude.{◌≡◌, ◌↔◌, None};
ghost use Rattle.tc_conformance.specs.Same.{IsEndedSo, IsEndedWithFront};

use crate::case::{Case, LONGEST_PULL, READ_FAULT, pull_behind};
use crate::trial::{Ended, Runner, Trial};
use std::alloc::AllocError;

/// What differs, in which run.
#[derive(Clone, Copy)]
pub struct Wrong {
    pub run: &'static str,
    /// The number that the run has beside it.
    pub number: usize,
    pub part: &'static str,
}

/// The first difference, or none.
type Verdict = Result<Option<Wrong>, AllocError>;

const REFUSED: u8 = 3;

const WRITE_FAULT: u8 = 5;

const READ_NOTE: &[u8] = b"tc: read fault\n";

const WRITE_NOTE: &[u8] = b"tc: write fault\n";

/// How many bytes a pull gives, in the runs that have to write the same.
const PIECES: [usize; 7] = [LONGEST_PULL, 1, 3, 4, 5, 4095, 4096];

/// How many bytes a pull gives when each pull fails in turn.
const PIECE: usize = 13;

/// The most pulls, pushes and lengths that are tried in a case.
const MOST: usize = 400;

/// The ends that are tried of an interval file, and how long it is at least.
const ENDS: usize = 50;

const WITH_ENDS: usize = 100;

/// The bytes of a header of an interval file.
const HEADER: usize = 12;

/// The first difference between a case and its runs.
pub fn judge(runner: &mut Runner, case: &Case) -> Verdict {
    if let Some(wrong) = in_pieces(runner, case)? {
        return Ok(Some(wrong));
    }
    if let Some(wrong) = where_calls_fail(runner, case)? {
        return Ok(Some(wrong));
    }
    if let Some(wrong) = where_sinks_are_full(runner, case)? {
        return Ok(Some(wrong));
    }
    at_early_ends(runner, case)
}

/// The first of those in which a pull or a push fails.
fn where_calls_fail(runner: &mut Runner, case: &Case) -> Verdict {
    if let Some(wrong) = where_pulls_fail(runner, case)? {
        return Ok(Some(wrong));
    }
    if let Some(wrong) = where_pushes_fail(runner, case)? {
        return Ok(Some(wrong));
    }
    at_named_pushes(runner, case)
}

/// The first of those in which an output or the notes are full.
fn where_sinks_are_full(runner: &mut Runner, case: &Case) -> Verdict {
    if let Some(wrong) = where_output_is_full(runner, case)? {
        return Ok(Some(wrong));
    }
    if let Some(wrong) = where_notes_are_full(runner, case)? {
        return Ok(Some(wrong));
    }
    where_neither_takes_all(runner, case)
}

/// Which part of an end differs: its status, its note or its output.
fn difference(ended: &Ended, status: u8, note: &[u8], output: &[u8]) -> Option<&'static str>
    ensures { result ≡ None ↔ IsEndedSo ended.now status note.now output.now }
{
    if ended.code() != status {
        Some("status")
    } else if ended.note.as_slice() != note {
        Some("note")
    } else if ended.output.as_slice() != output {
        Some("output")
    } else {
        None
    }
}

/// The same, if any front of the output may be written.
fn difference_of_front(ended: &Ended, status: u8, note: &[u8], whole: &[u8]) -> Option<&'static str>
    ensures { result ≡ None ↔ IsEndedWithFront ended.now status note.now whole.now }
{
    match whole.get(..ended.output.len()) {
        Some(front) => difference(ended, status, note, front),
        None => Some("output"),
    }
}

/// The difference in a run.
fn told(run: &'static str, number: usize, part: Option<&'static str>) -> Option<Wrong>
    ensures { result ≡ None ↔ part.entry ≡ None }
{
    part.map(|part| Wrong { run, number, part })
}

/// The same comes of each cutting of the input: by pulls as long as they can be first. The pull behind the end would
/// fail, which no run makes.
fn in_pieces(runner: &mut Runner, case: &Case) -> Verdict {
    for piece in PIECES {
        let pieces = [piece];
        let trial = case.trial(&pieces);
        let behind_the_end = pull_behind(case.input.len(), piece).saturating_add(1);
        let ended = runner.run(&Trial {
            failing_pull: trial.failing_pull.or(Some(behind_the_end)),
            ..trial
        })?;
        let part = difference(&ended, case.status, &case.note, &case.output);
        if part.is_some() {
            return Ok(told("in pieces of", piece, part));
        }
    }
    Ok(None)
}

/// What is written if the pull behind `length` bytes fails, which came in pulls as long as they can be.
fn behind(runner: &mut Runner, case: &Case, length: usize) -> Result<Ended, AllocError> {
    let input = case.input.get(..length).unwrap_or(&case.input);
    runner.run(&Trial {
        input,
        failing_pull: Some(pull_behind(length, LONGEST_PULL)),
        ..case.trial(&[LONGEST_PULL])
    })
}

/// A front of the output is written if a pull fails, unless the bytes before it decide the end already. However
/// these bytes came, the same is written.
fn where_pulls_fail(runner: &mut Runner, case: &Case) -> Verdict {
    if case.is_unread {
        return Ok(None);
    }
    // The last pull finds the end.
    let pulls = case.input.len().div_ceil(PIECE).saturating_add(1);
    for before in (0..pulls).step_by(pulls / MOST + 1) {
        let ended = runner.run(&Trial {
            failing_pull: Some((before as u64).saturating_add(1)),
            ..case.trial(&[PIECE])
        })?;
        let pulled = before.saturating_mul(PIECE).min(case.input.len());
        let is_decided = case.status != 0 && ended.code() == case.status;
        let part = if is_decided && case.status != READ_FAULT {
            difference(&ended, case.status, &case.note, &case.output)
        } else {
            difference_of_front(&ended, READ_FAULT, READ_NOTE, &case.output)
        };
        if part.is_some() {
            return Ok(told("a pull that fails behind byte", pulled, part));
        }
        let at_once = behind(runner, case, pulled)?;
        let part = difference(&at_once, ended.code(), &ended.note, &ended.output);
        if part.is_some() {
            return Ok(told("other pulls before byte", pulled, part));
        }
    }
    Ok(None)
}

/// A front of the output is written, a longer one for each push, until there are no more pushes.
fn where_pushes_fail(runner: &mut Runner, case: &Case) -> Verdict {
    let mut longest = None;
    for push in 1..=MOST {
        let ended = runner.run(&Trial {
            failing_push: Some(push as u64),
            ..case.trial(&[LONGEST_PULL])
        })?;
        if ended.code() == case.status {
            let part = difference(&ended, case.status, &case.note, &case.output);
            return Ok(told("the push behind the last", push, part));
        }
        let part = difference_of_front(&ended, WRITE_FAULT, WRITE_NOTE, &case.output);
        if part.is_some() {
            return Ok(told("push", push, part));
        }
        if longest >= Some(ended.output.len()) {
            return Ok(told("push", push, Some("no longer output than the one before")));
        }
        longest = Some(ended.output.len());
    }
    Ok(None)
}

/// What is written before each push, if the row says it.
fn at_named_pushes(runner: &mut Runner, case: &Case) -> Verdict {
    for (before, length) in case.pushes.iter().enumerate() {
        let ended = runner.run(&Trial {
            pieces: &case.pieces,
            failing_push: Some((before as u64).saturating_add(1)),
            ..case.trial(&[LONGEST_PULL])
        })?;
        let part = match case.output.get(..*length) {
            Some(front) => difference(&ended, WRITE_FAULT, WRITE_NOTE, front),
            None => Some("output"),
        };
        if part.is_some() {
            return Ok(told("the push behind byte", *length, part));
        }
    }
    Ok(None)
}

/// An output that is full has each byte that it has room for.
fn where_output_is_full(runner: &mut Runner, case: &Case) -> Verdict {
    let length = case.output.len();
    for room in (0..length).step_by(length / MOST + 1) {
        let ended = runner.run(&Trial {
            room,
            ..case.trial(&[LONGEST_PULL])
        })?;
        let front = case.output.get(..room).unwrap_or(&[]);
        let part = difference(&ended, WRITE_FAULT, WRITE_NOTE, front);
        if part.is_some() {
            return Ok(told("an output of", room, part));
        }
    }
    let ended = runner.run(&Trial {
        room: length,
        ..case.trial(&[LONGEST_PULL])
    })?;
    let part = difference(&ended, case.status, &case.note, &case.output);
    Ok(told("an output of", length, part))
}

/// Notes that are full change no status.
fn where_notes_are_full(runner: &mut Runner, case: &Case) -> Verdict {
    for notes_room in 0..case.note.len() {
        let ended = runner.run(&Trial {
            notes_room,
            ..case.trial(&[LONGEST_PULL])
        })?;
        let front = case.note.get(..notes_room).unwrap_or(&[]);
        let part = difference(&ended, case.status, front, &case.output);
        if part.is_some() {
            return Ok(told("notes of", notes_room, part));
        }
    }
    Ok(None)
}

/// Notes that are full change no status either where the first push fails.
fn where_neither_takes_all(runner: &mut Runner, case: &Case) -> Verdict {
    if case.output.is_empty() {
        return Ok(None);
    }
    for notes_room in 0..WRITE_NOTE.len() {
        let ended = runner.run(&Trial {
            notes_room,
            failing_push: Some(1),
            ..case.trial(&[LONGEST_PULL])
        })?;
        let front = WRITE_NOTE.get(..notes_room).unwrap_or(&[]);
        let part = difference(&ended, WRITE_FAULT, front, &[]);
        if part.is_some() {
            return Ok(told("a failing push and notes of", notes_room, part));
        }
    }
    Ok(None)
}

/// A long interval file may end behind its header and behind each of its first intervals. At another end its command
/// writes what it writes if a pull fails behind the same bytes.
fn at_early_ends(runner: &mut Runner, case: &Case) -> Verdict {
    if case.status != 0 || case.input.len() < WITH_ENDS || !case.input.starts_with(b"LTCI") {
        return Ok(None);
    }
    let width = if case.input.get(4) == Some(&2) { 2 } else { 4 };
    for length in 0..ENDS {
        let input = case.input.get(..length).unwrap_or(&[]);
        let ended = runner.run(&Trial {
            input,
            ..case.trial(&[LONGEST_PULL])
        })?;
        let is_whole = match length.checked_sub(HEADER) {
            Some(intervals) => intervals % width == 0,
            None => false,
        };
        let part = if is_whole {
            difference(&ended, 0, &[], &ended.output)
        } else {
            broken_off(runner, case, length, &ended)?
        };
        if part.is_some() {
            return Ok(told("an input that ends at byte", length, part));
        }
    }
    Ok(None)
}

/// What differs in the end behind a length at which no interval ends.
fn broken_off(
    runner: &mut Runner,
    case: &Case,
    length: usize,
    ended: &Ended,
) -> Result<Option<&'static str>, AllocError> {
    let note = format!(in runner.alloc; "tc: refused: truncated at byte {length}\n")?;
    let stands = behind(runner, case, length)?;
    Ok(difference(ended, REFUSED, note.as_bytes(), &stands.output))
}
