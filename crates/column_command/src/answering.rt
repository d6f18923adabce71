//! A line, with what is answered in its columns. Read next: `label_columns/src/fields.rt`.
ghost use Rattle.std.specs.Prelude.{◌≡◌, ℕ, ◌-◌, ◌≤◌, List, ◌++◌, length, take, drop};
ghost use Rattle.label_columns.specs.Columns.{answered_field, answered_line, is_meant};
ghost use Rattle.label_columns.specs.declared.columns.TheConstants.{MAX_COLUMN_LINE};

use label_columns::laws::parts_are_the_bytes;
use label_columns::{answer_column, column_in, columns_in, field_length, fields_length};
use tc_command::Output;
use tc_job::ColumnRun;

/// Writes a line without its newline, with what is answered in the columns that are meant.
pub(crate) fn put_answers<O: Output>(run: &ColumnRun, line: &[u8], out: &mut O)
    requires few { length line.now ≤ MAX_COLUMN_LINE }
    ensures { O.given out.old out.new (answered_line run.now.labels.base run.now.labels.way run.now.columns line.now) }
{
    parts_are_the_bytes();
    let parting = run.columns.parting;
    let fields = &line[..fields_length(line)];
    // Up to `put` they were written, and the field at `at` begins with the column of this number.
    let (mut put, mut at, mut number) = (0, 0, 1u32);
    'fields: while at < fields.len() && number <= run.columns.last {
        let end = at + field_length(parting, &fields[at..]);
        put = put_field(run, number, &fields[..end], put, at, out);
        number += columns_in(parting, &fields[at..end]);
        at = fields.len().min(end + 1);
    }
    out.gather(&fields[put..]);
    out.gather(&line[fields.len()..]);
}

/// Writes fields up to the answer in the last one, which begins at `at`, where that is a column that is meant and says
/// a label. It answers up to where they were written.
fn put_field<O: Output>(
    run: &ColumnRun,
    number: u32,
    fields: &[u8],
    put: usize,
    at: usize,
    out: &mut O,
) -> usize
    requires few { length fields.now ≤ MAX_COLUMN_LINE }
    requires behind { put ≤ at }
    requires within { at ≤ length fields.now }
    ensures most { result ≤ length fields.now }
    ensures wrote { (more : List ℕ) × O.given out.old out.new more
        × (more ++ drop result fields.now ≡ take (at - put) (drop put fields.now)
        ++ answered_field run.now.labels.base run.now.labels.way (is_meant run.now.columns number)
        (drop at fields.now)) }
{
    if !is_meant(run, number) {
        return put;
    }
    let field = &fields[at..];
    let (from, count) = column_in(field);
    match answer_column(
        run.labels.base(),
        &run.labels.way(),
        &field[from..from + count],
    ) {
        None => put,
        Some(answer) => {
            out.gather(&fields[put..at + from]);
            out.gather(&answer);
            at + from + count
        }
    }
}

fn is_meant(run: &ColumnRun, number: u32) -> bool
    ensures { result ≡ is_meant run.now.columns number }
{
    run.columns.first <= number && number <= run.columns.last
}
