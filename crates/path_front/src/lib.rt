//! What comes before and after the best path of cells through a sound.
//!
//! Before it, the samples of a sound become steps, so that a cell at play speed has 14 to 27 of them: a
//! sample stands for some steps, or some are summed. Spikes are clipped at three times the mean size of
//! the latest 512 samples, and the flat tops of spiky sound are held: half of the mean size comes to each
//! sample, on the side on which the sound is. Behind it, each cell that is decided is measured: the sound
//! of its halves, without the hold, times the signs of the path.
//!
//! What this crate promises:
//! - The steps that are given are those of the samples so far, each as a function of the list
//!   (`specs/Steps.antt`, `sounds_of`, `heard_at`).
//! - The cells that are given are those that the steps of the samples decide, as the sound goes on and when
//!   it ends, each measured in the sound of its own steps (`Cells::feed`, `Cells::finish`, `Cells::next`;
//!   `specs/Cells.antt`, `GivesCell`, `GivesLastCell`; `specs/Measured.antt`, `measured_of`), whatever is
//!   fetched when.
//! - Each cell is judged by its eight neighbours on either side, and by nothing else: the stretch of code
//!   breaks in front of it if it jumps, if the sound from the middle of the cell before it to its own is
//!   too faint, if a half does not fit, or if the path bends there, as at a cut of the tape (`Gate::feed`,
//!   `Gate::drain`; `specs/Gate.antt`, `breaks`; `specs/Levels.antt`, `specs/Fit.antt`,
//!   `specs/Bend.antt`). So silence changes nothing but beside it.
//! - Samples go in one by one, and the intervals of the best path come out: at the end those of the definition
//!   over the list of all samples, and before it those of the cells that were judged so far, whenever they are
//!   fetched (`Front::feed`, `Front::finish`, `Front::next`; `specs/Front.antt`, `AreIntervals`, `FrontStandsFor`).
//!   A sound has one list of intervals, which last as long as its steps, or less than 25 steps shorter (`laws`).
//! - All is kept in fixed room, and no number overflows in 2^40 steps: 2^37 samples of eight steps each.
//! - The intervals of a cell: a zero is one, a one two halves, and a tick is cut off their front if the
//!   stretch breaks (`tiled`; `specs/Tiles.antt`). Joined again they last as long as the cell (`laws`).
//!
//! Read `sizes`, `clip`, `hold`, `group` and `steps`, in this order, then `latest`, `measured`,
//! `levels`, `fit`, `gate`, `bend`, `tile`, `cells`, `judging` and `front`, and the file of the same name in
//! `specs/` beside each. Lists of samples and of steps begin with the latest. Nothing here allocates or fails.
#![tactic(auto)]

mod bend;
mod cells;
mod clip;
mod fit;
mod front;
mod gate;
mod group;
mod hold;
mod judging;
mod latest;
pub mod laws;
mod levels;
mod measured;
mod sizes;
mod steps;
mod tile;

pub use cells::Cells;
pub use clip::CLIP;
pub use front::Front;
pub use gate::{Ear, Gate, Judged, NEIGHBOURS};
pub use group::Sounds;
pub use hold::{Loudness, Side};
pub use judging::{Phase, Taken};
pub use latest::KEPT;
pub use levels::Range;
pub use measured::{Half, Measured};
pub use sizes::MEANS;
pub use steps::Heard;
pub use tile::{Tiles, tiled};
