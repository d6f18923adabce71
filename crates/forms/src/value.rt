//! The values of words. Read next: `reading`.
use biphase::Profile;
use interval_file::FileVersion;
use label_columns::Parting;
use tc_address::{Count, Direction, Label, System};
use tc_job::Witness;

/// The value of a word.
#[derive(Clone, Copy)]
pub enum Value {
    /// A number of a range.
    Number(u32),
    /// A number below 2^64.
    Seed(u64),
    /// A label.
    Label(Label),
    /// The page of help of the command in this row of `USAGES`.
    Page(usize),
    /// Neighbouring columns, the first and the last of them.
    Columns(u32, u32),
    /// What a word of a choice says.
    Said(Said),
}

/// What a word of a choice says.
#[derive(Clone, Copy)]
pub enum Said {
    /// How labels are counted.
    Count(Count),
    /// The frames of a second.
    System(System),
    /// The way of the tape.
    Direction(Direction),
    /// The tolerance under which words are read.
    Tolerance(Profile),
    /// What each word that is read is asked for.
    Witness(Witness),
    /// The version of the interval file.
    Version(FileVersion),
    /// The threshold is a half of the level.
    Follow,
    /// The threshold is a quarter of the level.
    Deep,
    /// The best path is followed.
    Path,
    /// A distance is written as it passes.
    Live,
    /// The frames run at 1000/1001 of the rate of their count.
    Ntsc,
    /// What parts the columns of a line.
    Parting(Parting),
    /// What is asked of labels.
    Asked(Asked),
    /// The way from a label is asked.
    Since,
    /// The sum of all labels is asked.
    Sum,
    /// The page of the exit numbers.
    Statuses,
}

/// What is asked of labels, but for the way from one.
#[derive(Clone, Copy)]
pub enum Asked {
    Number,
    Label,
    Seconds,
    Length,
    Plus,
    Minus,
    To,
}
