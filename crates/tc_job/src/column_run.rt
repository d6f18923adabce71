//! What the words of `labels` say of the columns of a text.

use crate::label_run::LabelRun;
use label_columns::Columns;

/// Labels of a count in some columns of each line, and what is answered to each of them.
#[derive(Clone, Copy)]
pub struct ColumnRun {
    pub labels: LabelRun,
    pub columns: Columns,
    /// Of each line the length from the label in the first of the columns to that in the last, in place of what is
    /// answered to each label.
    pub is_length: bool,
}
