//! A row of a script, from the fields of a record. Read next: `column`.
ghost use Rattle.std.specs.Prelude.{◌≡◌, ◌<◌, IfOk, IfSome, None, Some, length};
ghost use Rattle.csv.specs.Records.{field_at, fields_of};
ghost use Rattle.tc_address.specs.Numbering.{day_length};
ghost use Rattle.tc_address.specs.Spelling.{label_in};
ghost use Rattle.chase_core.specs.Step.{IsCommandOf};
ghost use Rattle.chase_script.specs.Script.{row_in, command_in, without_target};
ghost use Rattle.chase_script.specs.KeptRow.{row_of_fields, to_target};
ghost use Rattle.chase_script.specs.Script.{master_in};
ghost use Rattle.chase_script.specs.KeptRow.{no_master};
ghost use Rattle.chase_script.specs.Script.{IsRowFor};
ghost use Rattle.chase_script.specs.KeptRow.{master_at};

use crate::column::Column;
use crate::slip::slip_in;
use chase_core::{Command, Master};
use csv::ByteRecord;
use line_text::direction_named;
use tc_address::{Count, Label, number, read_text};

/// What comes in one frame.
#[derive(Clone, Copy)]
pub struct ScriptRow {
    /// The operator's command.
    pub command: Option<Command>,
    /// What the master reads.
    pub master: Option<Master>,
    /// How far the transport slips, in subframes, up to a million either way.
    pub slip: i32,
}

/// The row of a record, or its least refused column.
pub(crate) fn row_in(count: Count, fields: &ByteRecord) -> Result<ScriptRow, Column>
    ensures value { result ≡ row_in count (fields_of fields.now) }
    ensures fits { IfOk result (λ row. IsRowFor count row) }
{
    if fields.len() != 5 {
        return Err(Column::Fields);
    }
    row_of_fields(
        count,
        field(fields, 0),
        field(fields, 1),
        field(fields, 2),
        field(fields, 3),
        field(fields, 4),
    )
}

// A field that is there.
fn field(fields: &ByteRecord, i: usize) -> &[u8]
    requires { i < length (fields_of fields.now) }
    ensures { field_at (fields_of fields.now) i ≡ Some result.now }
{
    match fields.get(i) {
        Some(field) => field,
        None => unreachable!(),
    }
}

fn row_of_fields(
    count: Count,
    word: &[u8],
    target: &[u8],
    label: &[u8],
    direction: &[u8],
    slip: &[u8],
) -> Result<ScriptRow, Column>
    ensures value { result ≡ row_of_fields count word.now target.now label.now direction.now slip.now }
    ensures fits { IfOk result (λ row. IsRowFor count row) }
{
    let command = command_in(count, word, target)?;
    let master = master_in(count, label, direction)?;
    let slip = slip_in(slip)?;
    Ok(ScriptRow {
        command,
        master,
        slip,
    })
}

// Columns 1 and 2.
fn command_in(count: Count, word: &[u8], target: &[u8]) -> Result<Option<Command>, Column>
    ensures value { result ≡ command_in count word.now target.now }
    ensures fits { IfOk result (λ command. IfSome command (λ c. IsCommandOf count c)) }
{
    if word.is_empty() {
        without_target(None, target)
    } else if word == b"play".as_slice() {
        without_target(Some(Command::Play), target)
    } else if word == b"wait".as_slice() {
        without_target(Some(Command::Wait), target)
    } else if word == b"locate".as_slice() {
        to_target(count, target)
    } else {
        Err(Column::Command)
    }
}

fn without_target(command: Option<Command>, target: &[u8]) -> Result<Option<Command>, Column>
    ensures { result ≡ without_target command target.now }
{
    if target.is_empty() {
        Ok(command)
    } else {
        Err(Column::Target)
    }
}

fn to_target(count: Count, target: &[u8]) -> Result<Option<Command>, Column>
    ensures value { result ≡ to_target (label_in count target.now) }
    ensures fits { IfOk result (λ command. IfSome command (λ c. IsCommandOf count c)) }
{
    match label_in(count, target) {
        Some(label) => Ok(Some(Command::Locate(number(&label)))),
        None => Err(Column::Target),
    }
}

// The label of the count that a field spells.
fn label_in(count: Count, field: &[u8]) -> Option<Label>
    ensures value { result ≡ label_in count field.now }
    ensures of { IfSome result (λ label. label.count ≡ count) }
{
    read_text(field, count).ok()
}

// Columns 3 and 4.
fn master_in(count: Count, label: &[u8], direction: &[u8]) -> Result<Option<Master>, Column>
    ensures value { result ≡ master_in count label.now direction.now }
    ensures fits { IfOk result (λ master. IfSome master (λ m. m.number < day_length count)) }
{
    if label.is_empty() {
        no_master(direction)
    } else {
        master_at(count, label, direction)
    }
}

fn no_master(direction: &[u8]) -> Result<Option<Master>, Column>
    ensures value { result ≡ no_master direction.now }
    ensures fits { IfOk result (λ master. master ≡ None) }
{
    if direction.is_empty() {
        Ok(None)
    } else {
        Err(Column::Direction)
    }
}

fn master_at(count: Count, label: &[u8], direction: &[u8]) -> Result<Option<Master>, Column>
    ensures value { result ≡ master_at (label_in count label.now) direction.now }
    ensures fits { IfOk result (λ master. IfSome master (λ m. m.number < day_length count)) }
{
    match label_in(count, label) {
        Some(label) => {
            let direction = direction_named(direction).ok_or(Column::Direction)?;
            let number = number(&label);
            Ok(Some(Master { number, direction }))
        }
        None => Err(Column::Master),
    }
}
