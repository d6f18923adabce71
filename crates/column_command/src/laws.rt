//! What follows from the definitions alone: what changes in a line and in a text; and the limits, spelled a second time:
//! if code and definition read one constant, no contract of theirs would notice another value.
ghost use Rattle.std.specs.Prelude.{◌≡◌, ◌++◌, List, None, Some, codes, false, length, true, ℕ};
ghost use Rattle.column_command.specs.AnsweredText.{answered_text, lines_of};
ghost use Rattle.column_command.specs.OnlyColumns.{AreTheLines, OnlyColumnsChange};
ghost use Rattle.column_command.specs.Written.{first_label, length_from, written_or_long};
ghost use Rattle.column_command.specs.declared.columns.TheConstants.{MAX_TEXT};
ghost use Rattle.label_columns.specs.Columns.{answer_to, answered_or_long};
ghost use Rattle.label_columns.specs.declared.columns.TheConstants.{MAX_COLUMN, MAX_COLUMN_LINE};
ghost use Rattle.label_command.specs.AnsweredAgain.{Writes};
ghost use Rattle.label_lines.specs.declared.timebase.Timebase.{Timebase};
ghost use Rattle.label_lines.specs.declared.way.Way.{Way};
ghost use Rattle.label_lines.specs.declared.way.Way.TheVariants.{Minus, Plus};
ghost use Rattle.tc_address.specs.Label.{Address};
ghost use Rattle.tc_job.specs.declared.column_run.ColumnRun.{ColumnRun};

use label_columns::laws::parts_are_the_bytes;
use label_command::laws::{lines_are_answered_one_by_one, texts_and_answers_are_lines};
use tc_address::laws::{a_step_moves_the_number, a_text_is_read_as_its_label, steps_add_up};

/// No byte of a line changes outside the columns that are meant: what is written of it are its bytes, but that in such
/// columns the text of a label gave way to what is answered to it.
pub fn only_columns_change()
    ensures { (run : ColumnRun) (line : List ℕ)
        → OnlyColumnsChange run line (answered_or_long run.labels.base run.labels.way run.columns line) }
{
    parts_are_the_bytes();
}

/// So it is of what is written, where no length is asked. Where one is, the line stays if its first column is the text
/// of no label, and else only the second column changes: the length from that label takes the place of its label.
pub fn a_length_changes_one_column()
    ensures answers { (run : ColumnRun) (line : List ℕ) → run.is_length ≡ false
        → OnlyColumnsChange run line (written_or_long run line) }
    ensures length { (run : ColumnRun) (line : List ℕ) (first : Address) → run.is_length ≡ true
        → first_label run line ≡ Some first
        → OnlyColumnsChange (length_from run first) line (written_or_long run line) }
    ensures none { (run : ColumnRun) (line : List ℕ) → run.is_length ≡ true → first_label run line ≡ None
        → written_or_long run line ≡ line }
{
    parts_are_the_bytes();
}

/// What is put in the place of a column is what `labels` without columns writes of it alone, but for the newline.
pub fn a_column_is_answered_as_a_line()
    ensures { (base : Timebase) (way : Way) (column put : List ℕ) → answer_to base way column ≡ Some put
        → Writes base way column (put ++ codes "\n") }
{
    lines_are_answered_one_by_one();
    texts_and_answers_are_lines();
}

/// A column that is moved on and then back by as many labels has the bytes that it had, whatever midnight it passes.
pub fn a_column_comes_back()
    ensures on { (base : Timebase) (steps : ℕ) (column put : List ℕ) → answer_to base (Plus steps) column ≡ Some put
        → answer_to base (Minus steps) put ≡ Some column }
    ensures back { (base : Timebase) (steps : ℕ) (column put : List ℕ)
        → answer_to base (Minus steps) column ≡ Some put → answer_to base (Plus steps) put ≡ Some column }
{
    texts_and_answers_are_lines();
    a_text_is_read_as_its_label();
    a_step_moves_the_number();
    steps_add_up();
}

/// Lines in, lines out: what is written of a text has as many lines, each of them the line of its place with its
/// answers, and with the ending that it had.
pub fn lines_in_lines_out()
    ensures lines { (run : ColumnRun) (text : List ℕ) → AreTheLines run text }
    ensures count { (run : ColumnRun) (text : List ℕ)
        → length (lines_of (answered_text run text)) ≡ length (lines_of text) }
{
    parts_are_the_bytes();
    lines_are_answered_one_by_one();
    texts_and_answers_are_lines();
}

/// A text has a million million bytes at most, a line whose columns are answered 4,096, and so many columns.
pub fn the_limits_of_columns_are_these()
    ensures text { MAX_TEXT ≡ 1000000000000 }
    ensures line { MAX_COLUMN_LINE ≡ 4096 }
    ensures columns { MAX_COLUMN ≡ 4096 }
{}
