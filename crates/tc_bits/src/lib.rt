//! The fields of a time code word: frame address, flag bits and user bits.
//!
//! A word of linear time code and a line of vertical interval time code say the same fields, in other
//! places (SMPTE 12M). An address is eight decimal digits, units and tens of hours, minutes, seconds
//! and frames. Beside it are five flag bits and eight user groups of four bits each.
//!
//! What this crate promises:
//! - A `Table` says where each field is in a register. `fields_at` gives the fields that are there
//!   exactly if their digits say an address of the system (`specs/Reading.antt`, `raw_in`, and
//!   `specs/Fields.antt`, `Says`), and else their first fault, in the order of `FieldFault`
//!   (`specs/Fault.antt`, `first_field_fault`). `field_bits` writes them there (`specs/Table.antt`,
//!   `row_of`).
//! - If places share out the bits of a register, numbers that fit them are each in its place of
//!   their sum by weights, and of no other register (`specs/Row.antt`; the law `a_row_is_its_sum`). So a
//!   word of any table that shares its bits out has one spelling.
//! - What is in the places of a table and what its digits say is the same (`specs/Spelling.antt`,
//!   `AreExact`; the law `fields_are_exact`).
//! - `get_field` reads some neighbouring bits of a register (`specs/Register.antt`, `field`).
//! - Fields of 30 frames have the drop-frame flag exactly if their count is drop-frame.
//!
//! Read `place` and `register`, then `user_bits`, `flags`, `fields`, `table`, `reading`, `raw`, `fault`
//! with its `names`, `checking` and `writing`, with the files of specs/ beside them. `ltc_word` and
//! `vitc_line` bring their tables. `direction_reader`, `report_text` and `tc_top` take the fields from there.
//! Nothing here allocates or fails in any other way.
#![tactic(auto)]

mod checking;
mod fault;
mod fields;
mod flags;
pub mod laws;
pub mod names;
mod place;
mod raw;
mod reading;
mod register;
mod table;
mod user_bits;
mod writing;

pub use checking::check_fields;
pub use fault::FieldFault;
pub use fields::{DropFlag, Fields};
pub use flags::Flags;
pub use place::Place;
pub use raw::RawFields;
pub use reading::{fields_at, is_set_at};
pub use register::get_field;
pub use table::Table;
pub use user_bits::UserBits;
pub use writing::field_bits;
