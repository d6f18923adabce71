//! Where the fields of a line end, and which bytes of a field are its column. Read next: `answer`.
ghost use Rattle.std.specs.Prelude.{◌≡◌, ◌+◌, ◌≤◌, length};
ghost use Rattle.std.specs.List.{position_or_len};
ghost use Rattle.label_columns.specs.Columns.{before, column_length, columns_in, ends_field, fields_length};
ghost use Rattle.label_columns.specs.Columns.{is_blank, up_to_last};

use crate::columns::Parting;

/// How many bytes of a line its fields have: a carriage return at its end belongs to its ending.
pub fn fields_length(line: &[u8]) -> usize
    ensures value { result ≡ fields_length line.now }
    ensures most { result ≤ length line.now }
{
    match line.last() {
        Some(13) => line.len() - 1,
        _ => line.len(),
    }
}

/// How many bytes there are before the first one that ends a field.
pub fn field_length(parting: Parting, bytes: &[u8]) -> usize
    ensures value { result ≡ position_or_len (ends_field parting) bytes.now }
    ensures most { result ≤ length bytes.now }
{
    let mut at = 0;
    'bytes: while at < bytes.len() && !ends_field(parting, bytes[at]) {
        at += 1;
    }
    at
}

/// How many columns a field is: one, or none.
pub fn columns_in(parting: Parting, field: &[u8]) -> u32
    ensures value { result ≡ columns_in parting field.now }
    ensures most { result ≤ 1 }
{
    match parting {
        Parting::Blanks if field.is_empty() => 0,
        _ => 1,
    }
}

/// How many bytes of a field come before its column, and how many the column has.
pub fn column_in(field: &[u8]) -> (usize, usize)
    ensures from { result.0 ≡ before field.now }
    ensures count { result.1 ≡ column_length field.now }
    ensures most { result.0 + result.1 ≤ length field.now }
{
    let from = blanks_before(field);
    (from, up_to_last(&field[from..]))
}

/// How many blanks bytes begin with.
fn blanks_before(bytes: &[u8]) -> usize
    ensures value { result ≡ before bytes.now }
    ensures most { result ≤ length bytes.now }
{
    let mut at = 0;
    'bytes: while at < bytes.len() && is_blank(bytes[at]) {
        at += 1;
    }
    at
}

/// How many bytes there are up to the last one that is no blank.
fn up_to_last(bytes: &[u8]) -> usize
    ensures value { result ≡ up_to_last bytes.now }
    ensures most { result ≤ length bytes.now }
{
    let mut end = bytes.len();
    'blanks: while end > 0 && is_blank(bytes[end - 1]) {
        end -= 1;
    }
    end
}

fn is_blank(byte: u8) -> bool
    ensures { result ≡ is_blank byte }
{
    byte == b' ' || byte == b'\t'
}

/// Whether a byte ends a field.
fn ends_field(parting: Parting, byte: u8) -> bool
    ensures { result ≡ ends_field parting byte }
{
    match parting {
        Parting::Blanks => is_blank(byte),
        Parting::Commas => byte == b',',
        Parting::CommasAndSemicolons => byte == b',' || byte == b';',
    }
}
