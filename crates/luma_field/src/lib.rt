//! The lines of vertical interval code that the rows of a field say, by themselves and two as one.
//!
//! A field of a picture carries its time code in several rows. Each row that carries code may say a line; and
//! two rows that lie near one another say one together, which is clear where each of them is not.
//!
//! What this crate promises:
//! - `FieldRows` keeps the first 20 rows of a field that carry code, with their numbers. `FieldRows::lines` gives what
//!   each of them says, and then what two of them say as one that are at most 4 rows and 4 grains apart, a grain a
//!   720th of the row, and contradict each other in no bit: the first 20 lines of all (`specs/Field.antt`,
//!   `lines_of`).
//! - `PixelReader::take` takes the rows of fields, one behind another, a byte a pixel. With the last row of a field it
//!   gives the lines that the field says, and with none before (`specs/Rows.antt`, `SaysLines`; `part`, `whole`). It
//!   keeps no row.
//! - Any bytes of a field say one list of lines, of 20 at most (`laws::a_field_says_its_lines`).
//!
//! Read `found`, `lines` and `field`, with `specs/Field.antt` beside them, and then `raster` and `reader`, with
//! `specs/Rows.antt`. `luma_row` reads the rows; `vitc_reader` writes the bits of a line as its runs. Nothing here
//! allocates or overflows.
#![tactic(auto)]

mod field;
mod found;
pub mod laws;
mod lines;
mod raster;
mod reader;

pub use field::FieldRows;
pub use found::FoundRow;
pub use lines::Lines;
pub use raster::{MAX_HEIGHT, MAX_ROWS, Raster};
pub use reader::PixelReader;
