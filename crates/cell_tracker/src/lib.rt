//! Following the cells of a recording, one interval at a time.
//!
//! A recording is a list of intervals, in ticks. If two neighbouring intervals are unequal, the
//! greater of them is a zero: there is the lock. From the lock on the tracker takes cells that keep a
//! profile's tolerance, as many as follow: a stretch. At the first interval that fits no cell the
//! stretch breaks, and the search for the next lock begins there. The lock and the stretches are this
//! project's own.
//!
//! What this crate promises:
//! - Each `feed` answers exactly by the tests of `biphase` (its clauses but `stands`).
//! - The three states stand for the intervals so far, without keeping them: `Hunting` if no
//!   stretch is open, `AtCell` at the end of an open one, `MidCell` one interval before that end. What
//!   a stretch gains, where one begins and where it breaks is fixed by the intervals
//!   (`specs/StandsFor.antt`, clause `stands`).
//! - Stretches are the longest chains from their locks, one after another (`specs/Stretch.antt`,
//!   `AreStretches`), and a list has one list of them. If more intervals follow, they go on, and a
//!   broken one stays as it is (`specs/Growing.antt`, `laws`).
//! - A recording within the tolerance is one stretch, and its cells are the recording's own
//!   (`specs/Recording.antt`). Each state is at a boundary of such a recording, or inside a one of it
//!   (`specs/PieceEnd.antt`). If the tolerance looks at the last cell alone, the recording is found
//!   again after anything (`specs/FoundAgain.antt`), and in reverse order its cells are the
//!   same (`specs/Mirrored.antt`, all in `laws`).
//!
//! Read `hunting`, `at_cell` and `mid_cell`, in this order, and `specs/Lock.antt`, `Stretch.antt` and
//! `StandsFor.antt` beside them, then `specs/Recording.antt`. Nothing here allocates or refuses.
#![tactic(auto)]

mod at_cell;
mod hunting;
pub mod laws;
mod mid_cell;

pub use at_cell::{AtCell, FromAtCell};
pub use hunting::{FromHunting, Hunting};
pub use mid_cell::{FromMidCell, MidCell};
