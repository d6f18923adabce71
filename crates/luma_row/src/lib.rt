//! Vertical interval code in a row of gray pixels.
//!
//! A row of a picture that carries the code is light and dark in 90 cells, and a cell is a 96th of the row, within
//! 5 percent. Its nine sync pairs, a 1 and a 0 every ten bits, stand at known places of the word. In a row with
//! little noise the light falls from one pixel to the next where their 1s end, so the word lies at these edges; in
//! other rows it is sought where the nine pairs together fall the most from light to dark. Between light and dark
//! stands no fixed level: a cell is a 1 where its light is above a threshold that follows the sync pairs along the row.
//!
//! What this crate promises:
//! - `RowReader::read` gives a row that carries code, and nothing of every other (`code`, `none`; `specs/Row.antt`,
//!   `IsCode`): two pixels are eight levels apart; a word lies in it (`LiesAt`); and the swing of the sync pairs
//!   counts (`specs/Cells.antt`, `counts`).
//! - A word lies at the sharp place, where there is one (`specs/Edges.antt`, `IsSharp`): the first pair stands at the
//!   first falling edge of the row, each further one at the next edge nine cells behind, and each swings by five
//!   eighths of what the lightest and the darkest pixel are apart.
//! - In a row without one it is found that is sought (`specs/Row.antt`, `IsSought`): at the first of the best coarse
//!   places (`specs/Coarse.antt`, `IsCoarse`: no distance and start that is looked at has a greater sum of nine falls),
//!   made finer by moves to the first of the best neighbours (`specs/Climb.antt`, `IsPlace`), or some cells beside it,
//!   at the earliest place where all nine pairs fall (`specs/Earliest.antt`, `earliest`).
//! - The light of a cell is counted from the darkest pixel (`specs/Cells.antt`, `cell`), and the heights of the
//!   90 cells above their threshold are those of `specs/Heights.antt`, `height`.
//! - `Levels::bits` gives the 90 bits where bit 0 is 1 and each bit is an eighth of the way to its level, and else
//!   nothing (`specs/Levels.antt`, `says_bits`, `number_of`). So no bit is decided nearer to its threshold
//!   (`laws::a_bit_that_is_said_is_clear`).
//! - `Levels::with` makes one of two rows, and `Levels::contradicts` tells whether a bit is half way to its level and
//!   another one in each (`joined`, `contradict`).
//! - A row says one thing (`laws::a_row_says_one_thing`).
//!
//! Read `width`, `light` and `place`, then `edges`, and for rows with noise `coarse`, `climb` and `earliest`, which
//! find the word; then `cells`, `heights`, `levels` and `row`, each with its file of specs/. Places are counted in
//! sixteenths of a pixel. Nothing here allocates or overflows, whatever the pixels are. `luma_truth` says what is read
//! of a clean drawing; `vitc_reader` writes bits as the runs of a line, and reads them.
#![tactic(auto)]

mod best;
mod cells;
mod climb;
mod coarse;
mod earliest;
mod edges;
mod extremes;
mod heights;
pub mod laws;
mod levels;
mod light;
mod place;
mod row;
mod width;

pub use heights::Heights;
pub use levels::Levels;
pub use light::EVEN;
pub use place::Place;
pub use row::{CodeRow, RowReader};
pub use width::{MAX_WIDTH, MIN_WIDTH};
