//! The lines of a field: from the runs of a line's levels to its bits, and from all lines to one answer.
//!
//! A line of video is alternately high and low, beginning with the high level of bit 0. A run is how long one
//! level lasts, in ticks. One cell of a bit lasts 1/115 of the line. A field carries its time code in
//! several lines, and a reader says what they carry together.
//!
//! What this crate promises:
//! - `read_runs` gives the bits exactly if the runs stand for some (`specs/Runs.antt`, `StandFor`): each
//!   run is within a quarter of a cell of a whole number of cells, and there are 90 at most. Else it names
//!   the first run that can't be taken (`IsRunFault`).
//! - `runs_of` writes the runs of some bits, and they stand for these bits, at every length of a line.
//! - A `FieldReader` that was fed some lines, as their runs or as the bytes of these, answers for
//!   all of them (`specs/Field.antt`, `StandsFor`, `IsAnswer`): agreed, in conflict, or nothing, with the
//!   fault of the first line. That is: it says whose lines these are, of which word's line each has the runs,
//!   and where the first two differ (`specs/Agreement.antt`, `SaysOf`; `laws`).
//!
//! Read `fault`, `line_length`, `ones`, `reading`, `writing` and `field`, in this order, and the files of specs/
//! beside them. `vitc_line` says what the bits of a line spell. Nothing here allocates or fails in any other way.
#![tactic(auto)]

mod fault;
mod field;
pub mod laws;
mod line_length;
mod ones;
mod reading;
mod writing;

pub use fault::{ReadFault, RunFault};
pub use field::{FieldAnswer, FieldReader};
pub use line_length::{MAX_LINE_LENGTH, MIN_LINE_LENGTH};
pub use reading::read_runs;
pub use writing::runs_of;
