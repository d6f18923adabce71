//! The columns of a script. Read next: `slip`.
ghost use Rattle.std.specs.Prelude.{◌≡◌};
ghost use Rattle.chase_script.specs.Column.{number_of_column};

/// What is refused of a record.
#[derive(Clone, Copy, Debug)]
pub enum Column {
    /// The record has not five fields.
    Fields,
    /// The command is none of those that there are.
    Command,
    /// The target is no label of the count, or is given without `locate`.
    Target,
    /// The master's label is no label of the count.
    Master,
    /// The direction is none, is missing, or is given without a master.
    Direction,
    /// The slip is no number of subframes up to a million, either way.
    Slip,
}

impl Column {
    /// The number of the column, from 1; 0 if the number of fields is wrong.
    pub fn number(self) -> u64
        ensures value { result ≡ number_of_column self }
    {
        match self {
            Column::Fields => 0,
            Column::Command => 1,
            Column::Target => 2,
            Column::Master => 3,
            Column::Direction => 4,
            Column::Slip => 5,
        }
    }
}
