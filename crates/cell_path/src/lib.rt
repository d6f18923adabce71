//! The best path of cells through a sound.
//!
//! A sound is a list of steps. A cell lasts from 4 to 96 steps, one of 45 lengths; a zero has one sign,
//! a one has two halves of different signs, and the sign changes at each boundary. The score of a path
//! is the sum of the sound times the signs of its cells, less what it costs to change the length or to
//! jump. Deciding cell by cell, the best cell may lead nowhere; the best path is the one that nothing
//! in the whole sound speaks against.
//!
//! What this crate promises:
//! - The marks of each step are those of the best paths so far, in each length and sign, of the best ways to
//!   begin behind it, and of the best path of all (`Scores::feed`, clause `marked`; `specs/Best.antt`, `IsBest`:
//!   no other path that ends so has a greater score, and of equal ones the best is the first in one order). The
//!   definition speaks of all lists of cells (`specs/Path.antt`, `IsPath`, `score`), and of no machine.
//! - Four steps are taken at once: no cell has fewer, so what ends with four steps in a row depends on no step
//!   among them. The numbers that are kept are those of scores (`specs/StandsFor.antt`, `RowsStandFor`), and of
//!   each score its lowest 32 bits (`specs/Four.antt`, `low`). Scores that are compared lie near one another
//!   (`laws`, `the_best_scores_lie_near_one_another`), so the difference of what is kept says which is greater,
//!   and no score can be too great.
//! - A best path is followed back from point to point: each `Paths::back` gives its latest cell, and
//!   where the cell before it ends (`specs/KeptMarks.antt`, `GoesBack`), as long as the points lie within
//!   4,000 steps. A mark of one byte for each step and length keeps the bits and the ways
//!   (`specs/Marks.antt`).
//! - While the sound goes on, its cells are decided: every 1,024 steps the best unfinished path is followed
//!   back, and those of its cells that ended 800 steps ago or earlier, behind what was decided before, are
//!   given one by one in the order of time (`Decisions::feed`, `Decisions::give`; `specs/Decided.antt`,
//!   `AreDecided`: what is decided depends on the steps alone, not on when it is fetched). Unfinished paths
//!   end with one of the latest 96 steps, since a cell may go on behind them; the best lacks least of the sum
//!   of the sizes of the sound (`specs/Unfinished.antt`, `IsBestUnfinished`). When the sound ends, the
//!   rest of its best path is decided too (`Decisions::finish`; `AreDecidedInAll`). A cell jumps if it
//!   does not meet the one before it within a quarter of its length and with its sign. At most 512 are
//!   decided at once, so nothing is allocated.
//! - A sound has one best path for each end, and what comes before the latest cell of a best path is a
//!   best path itself; what is decided stays, and what is decided later comes after it. When it ends, one list
//!   of cells is decided in all, and covers it to within a quarter of a cell (`laws`).
//!
//! Read `lengths` and `cell` with `specs/Path.antt` and `specs/Best.antt`, then `scores` with
//! `specs/Number.antt` and `specs/StandsFor.antt`, `paths` with `specs/KeptMarks.antt`, and `decisions`
//! with `specs/Unfinished.antt` and `specs/Decided.antt`; below them are `four` and `ring`, `end`, `best` and
//! `start`, which try one length each, `lacks` and `follow`. Lists of steps and of cells begin with the latest.
//! Nothing here allocates or refuses. What makes the steps of samples, and what separates cells from noise, is in
//! path_front.
#![tactic(auto)]

mod best;
mod cell;
mod decisions;
mod end;
mod ends;
mod follow;
mod four;
mod lacks;
pub mod laws;
mod lengths;
mod mark;
mod marks;
mod paths;
mod pending;
mod placed;
mod point;
mod ring;
mod rows;
mod scores;
mod spread;
mod start;
mod starts;
mod sums;
mod waiting;

pub use cell::{Bit, Cell, Sign, Step, Way};
pub use decisions::Decisions;
pub use ends::Ends;
pub use follow::{DELAY, EVERY, FIRST};
pub use four::Four;
pub use lacks::LATEST;
pub use lengths::{EARLY, JUMP, LENGTHS, PLACES, length_at};
pub use mark::{FourMarks, StepMarks};
pub use marks::KEPT;
pub use paths::Paths;
pub use pending::Pending;
pub use placed::{Decided, Placed};
pub use point::{Back, Point};
pub use scores::Scores;
pub use start::Costs;
pub use waiting::ROOM;
