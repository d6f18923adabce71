//! Lines of text in fixed room.
//!
//! Each report of the toolkit is lines, and each line is bytes of ASCII with a newline at its end, 128 at
//! most. A line is made piece by piece: words, decimal and hexadecimal numbers, truth values and
//! directions.
//!
//! What this crate promises:
//! - Each `push_` appends exactly the text of what it is given, and leaves what comes before it
//!   (`specs/Line.antt`; the clauses `items`).
//! - A number takes no more digits than its bound says: `push_count` 13, `push_ticks` 19,
//!   `push_any_number` 20, `push_signed` 11 (the clauses `len`). So a line of many numbers is known to fit
//!   from its words alone.
//! - What is read as it is written: `direction_named` and `are_digits` recognise the direction and the digits of a
//!   word exactly.
//!
//! Read `line`, then `numbers` and `named`, with `specs/Line.antt` beside them. `report_text`, `line_file`,
//! `mtc_reader`, `chase_script` and `tc_top` write with this crate, and `chase_script` and `forms` read with it.
//! Nothing here allocates or fails.
#![tactic(auto)]

mod line;
mod named;
mod numbers;

pub use line::{Text, push_bytes};
pub use named::{direction_name, direction_named, push_flag, push_flags};
pub use numbers::{
    are_digits, push_any_number, push_count, push_hexadecimal, push_number, push_signed, push_ticks,
};
