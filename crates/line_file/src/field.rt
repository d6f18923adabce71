//! A field at the front of bytes. Read next: `vitc_reader/src/field.rt`, with each of its lines.
ghost use Rattle.std.specs.Prelude.{◌≡◌, ◌<◌, ◌≤◌, ◌+◌, ◌-◌, ◌*◌, ◌^◌, ◌++◌, ◌∷◌, [], ℕ, List, length, take, drop};
ghost use Rattle.std.specs.Prelude.{slice_index, true};
ghost use Rattle.vitc_reader.specs.Field.{StandsFor};
ghost use Rattle.line_file.specs.KeptFront.{front_of, line_of, runs_behind, IsFoundField};
ghost use Rattle.line_file.specs.LineFile.{line_at, runs_at};
ghost use Rattle.line_file.specs.KeptPieces.{is_run_count};
ghost use Rattle.line_file.specs.LineHeader.{IsHeader};
ghost use Rattle.line_file.specs.declared.found.Found.TheVariants as things;

use crate::found::Found;
use crate::header::LineHeader;
use byteorder::{BigEndian, ByteOrder};
use file_faults::LineFileFault;
use vitc_reader::laws::a_line_again_changes_nothing;
use vitc_reader::{FieldAnswer, FieldReader};

/// The most lines of a field.
pub const MAX_LINES: u8 = 20;

/// The most runs of a line.
pub const MAX_RUNS: u8 = 89;

/// What bytes behind the header begin with.
#[derive(Clone, Copy)]
pub(crate) enum FoundField {
    /// A field, with the answer of its lines and the number of its bytes.
    Whole { answer: FieldAnswer, width: usize },
    /// The first bytes of one.
    Short,
    /// A piece that fails its test.
    Fault(LineFileFault),
}

/// The field with which bytes begin, the first of which is at this place of the file.
pub(crate) fn field_in(header: &LineHeader, place: u64, bytes: &[u8]) -> FoundField
    requires header { IsHeader header.now }
    requires place { place < 2 ^ 62 }
    ensures { IsFoundField header.now place bytes.now result }
{
    if bytes.is_empty() {
        return FoundField::Short;
    }
    let count = bytes[0];
    if count > MAX_LINES {
        return FoundField::Fault(LineFileFault::LineCount(place));
    }
    a_line_again_changes_nothing();
    let mut reader = FieldReader::new(header.system, header.length);
    let mut width = 1;
    // How many bytes the line before has, 0 before the first one.
    let mut last = 0;
    'lines: for _line in 0..count {
        if stands_again(bytes, width, last) {
            // It says again what it said, which changes no answer.
            width += last;
        } else {
            match line_in(place + width as u64, &bytes[width..], &mut reader) {
                Found::Whole => {}
                Found::Short => return FoundField::Short,
                Found::Fault(fault) => return FoundField::Fault(fault),
            }
            last = line_width(bytes[width]);
            width += last;
        }
    }
    FoundField::Whole {
        answer: reader.answer(),
        width,
    }
}

/// Whether the `last` bytes before this place come again behind it.
fn stands_again(bytes: &[u8], at: usize, last: usize) -> bool
    requires at { at ≤ length bytes.now }
    requires last { last ≤ at }
    ensures some { result ≡ true → 1 ≤ last }
    ensures again { result ≡ true → drop at bytes.now ≡ take last (drop (at - last) bytes.now)
        ++ drop last (drop at bytes.now) }
{
    last > 0 && bytes[at..].starts_with(&bytes[at - last..at])
}

/// The line with which bytes begin. If it is whole the reader takes it.
fn line_in(place: u64, bytes: &[u8], reader: &mut FieldReader) -> Found
    requires place { place < 2 ^ 63 }
    ensures front { front_of result (line_of bytes.now) ≡ line_at place bytes.now }
    ensures within { result ≡ things.Whole → 1 + 2 * slice_index bytes.now 0 ≤ length bytes.now }
    ensures same { (reader.new.system ≡ reader.old.system) × (reader.new.length ≡ reader.old.length) }
    ensures next { result ≡ things.Whole → (lines : List (List ℕ)) → StandsFor reader.old lines
        → StandsFor reader.new (lines ++ line_of bytes.now ∷ []) }
{
    if bytes.is_empty() {
        return Found::Short;
    }
    let count = bytes[0];
    if !is_run_count(count) {
        return Found::Fault(LineFileFault::RunCount(place));
    }
    let width = line_width(count);
    if bytes.len() < width {
        return tried_runs(place, count, bytes);
    }
    if reader.line_of_bytes(&bytes[1..width]) {
        // Each run is a cell or more, so it lasts a tick or more.
        return Found::Whole;
    }
    tried_runs(place, count, bytes)
}

/// Whether `count` runs, each of a tick or more, follow the first byte.
fn tried_runs(place: u64, count: u8, bytes: &[u8]) -> Found
    requires place { place < 2 ^ 63 }
    requires some { 0 < length bytes.now }
    ensures front { front_of result (runs_behind count bytes.now) ≡ runs_at count (place + 1) (drop 1 bytes.now) }
    ensures within { result ≡ things.Whole → 1 + 2 * count ≤ length bytes.now }
{
    let mut at = 1;
    'runs: for _run in 0..count {
        if bytes.len() < at + 2 {
            return Found::Short;
        }
        if BigEndian::read_u16(&bytes[at..]) == 0 {
            return Found::Fault(LineFileFault::Run(place + at as u64));
        }
        at += 2;
    }
    Found::Whole
}

/// How many bytes a line of `count` runs has.
fn line_width(count: u8) -> usize
    ensures { result ≡ 1 + 2 * count }
{
    1 + 2 * count as usize
}

/// Whether a line may have `count` runs.
fn is_run_count(count: u8) -> bool
    ensures { result ≡ is_run_count count }
{
    count % 2 == 1 && count <= MAX_RUNS
}
