//! A line with the length between the labels in two of its columns. Read next: `answering`.
ghost use Rattle.std.specs.Prelude.{◌≡◌, ◌-◌, ◌≤◌, length, slice_get, option_and_then, IfSome};
ghost use Rattle.column_command.specs.Written.{first_label, length_from, second_column, with_length, written_line};
ghost use Rattle.label_columns.specs.Columns.{column_of, columns_of, ends_field};
ghost use Rattle.label_columns.specs.Parts.{parted};
ghost use Rattle.label_columns.specs.declared.columns.TheConstants.{MAX_COLUMN_LINE};
ghost use Rattle.label_lines.specs.Timebase.{count_of};
ghost use Rattle.tc_address.specs.Label.{IsLabel};
ghost use Rattle.tc_address.specs.Spelling.{label_in};

use crate::answering::put_answers;
use label_columns::{Columns, Parting, column_in, columns_in, field_length, fields_length};
use label_lines::Way;
use tc_address::{Count, Label, read_text};
use tc_command::Output;
use tc_job::{ColumnRun, LabelRun};

/// Writes a line without its newline, with what is answered in the columns that are meant, or with the length between
/// the labels in two of them.
#[tactic(auto, unfolding(crate::specs::Written::written_line))]
pub(crate) fn put_line<O: Output>(run: &ColumnRun, line: &[u8], out: &mut O)
    requires few { length line.now ≤ MAX_COLUMN_LINE }
    ensures { O.given out.old out.new (written_line run.now line.now) }
{
    if run.is_length {
        put_length(run, line, out)
    } else {
        put_answers(run, line, out)
    }
}

/// Writes a line with the length from the label in the first column in the place of that in the second.
fn put_length<O: Output>(run: &ColumnRun, line: &[u8], out: &mut O)
    requires few { length line.now ≤ MAX_COLUMN_LINE }
    ensures { O.given out.old out.new (with_length run.now (first_label run.now line.now) line.now) }
{
    match first_label(run, line) {
        Some(first) => put_answers(&length_from(run, &first), line, out),
        None => out.gather(line),
    }
}

/// In the second column the length from a label is asked.
fn length_from(run: &ColumnRun, first: &Label) -> ColumnRun
    requires valid { IsLabel first.now }
    requires count { first.now.count ≡ count_of run.now.labels.base }
    ensures { result ≡ length_from run.now first.now }
{
    let second = second_column(&run.columns);
    ColumnRun {
        labels: LabelRun::new(run.labels.base(), Way::Length(*first)),
        columns: Columns {
            parting: run.columns.parting,
            first: second,
            last: second,
        },
        is_length: false,
    }
}

/// The last of the columns, or the next one where the first is given alone.
fn second_column(columns: &Columns) -> u32
    ensures { result ≡ second_column columns.now }
{
    if columns.first < columns.last {
        columns.last
    } else {
        columns.first.saturating_add(1)
    }
}

/// The label in the first of the columns, where that is the text of one.
fn first_label(run: &ColumnRun, line: &[u8]) -> Option<Label>
    ensures value { result ≡ first_label run.now line.now }
    ensures valid { IfSome result (λ label. IsLabel label × (label.count ≡ count_of run.now.labels.base)) }
{
    label_behind(
        run.labels.base().count(),
        run.columns.parting,
        run.columns.first.saturating_sub(1),
        &line[..fields_length(line)],
    )
}

/// The label in the column behind so many others, where that is the text of one.
fn label_behind(count: Count, parting: Parting, others: u32, fields: &[u8]) -> Option<Label>
    ensures value { result ≡ option_and_then (label_in count)
        (slice_get (columns_of parting (parted (ends_field parting) fields.now)) others) }
    ensures valid { IfSome result (λ label. IsLabel label × (label.count ≡ count)) }
{
    let (mut at, mut left) = (0, others);
    'fields: while at < fields.len() {
        let end = at + field_length(parting, &fields[at..]);
        let here = columns_in(parting, &fields[at..end]);
        if left < here {
            return label_in_field(count, &fields[at..end]);
        }
        left -= here;
        at = fields.len().min(end + 1);
    }
    None
}

/// The label that is the column of a field, where that is the text of one.
fn label_in_field(count: Count, field: &[u8]) -> Option<Label>
    ensures value { result ≡ label_in count (column_of field.now) }
    ensures valid { IfSome result (λ label. IsLabel label × (label.count ≡ count)) }
{
    let (from, length) = column_in(field);
    label_in(count, &field[from..from + length])
}

/// The label that some bytes are the text of.
fn label_in(count: Count, bytes: &[u8]) -> Option<Label>
    ensures value { result ≡ label_in count bytes.now }
    ensures valid { IfSome result (λ label. IsLabel label × (label.count ≡ count)) }
{
    match read_text(bytes, count) {
        Ok(label) => Some(label),
        Err(_) => None,
    }
}
