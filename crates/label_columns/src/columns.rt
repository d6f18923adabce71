//! Which columns of a line are meant, and what parts them. Read next: `fields`.

/// What parts the columns of a line.
#[derive(Clone, Copy)]
pub enum Parting {
    /// One or more spaces or tabs.
    Blanks,
    /// A comma, with the spaces and tabs beside it. A quotation mark is a byte as any other.
    Commas,
    /// A comma or a semicolon, in the same way.
    CommasAndSemicolons,
}

/// Neighbouring columns of a line, from the first to the last of them. Columns are counted from 1.
#[derive(Clone, Copy)]
pub struct Columns {
    pub parting: Parting,
    pub first: u32,
    pub last: u32,
}

/// The greatest number of a column: a line of 4,096 bytes has no more between blanks.
pub const MAX_COLUMN: u32 = 4096;

/// The most bytes of a line whose columns are answered, without its newline. A longer one stays as it is.
pub const MAX_COLUMN_LINE: usize = 4096;
