//! Biphase mark (SMPTE 12M, linear time code): cells, and when neighbouring intervals belong together.
//!
//! A recording is a list of intervals, the whole numbers of ticks between two transitions. A cell is
//! one bit: a zero is one interval, and a one is two intervals, its halves. What is kept of the cells so
//! far, and how far the next cell and its halves may differ from that, is this project's own choice, a
//! `Profile`: two compare a cell with the one before it, and one with the mean of the latest four.
//!
//! What this crate promises:
//! - `kind` says whether two neighbouring intervals are equal, one the half of the other, or neither
//!   (`specs/Pair.antt`, `IsKind`).
//! - `is_zero`, `may_begin_one` and `is_one` are the tests of the tolerance, exact for all lengths
//!   (`specs/Tolerance.antt`, `IsNext`, `IsFirstHalf` and `AreHalves`, a row each profile), and
//!   `Profile::at_lock` and `Profile::after` are what it keeps (there, `kept_at_lock`, `kept_next`).
//! - In a list of cells within the tolerance, a chain, these tests never mistake one for the other,
//!   and the greater interval of an unequal pair is a zero (`laws`).
//! - `Shaper` makes the cells of a shape, whose lengths move step by step from one length to another
//!   (`specs/Shape.antt`, `shaped`), and they are a chain of the normal tolerance
//!   (`laws::shaped_cells_are_a_chain`).
//! All of it holds for each profile, but for what says that a profile looks at the last cell alone
//! (`LooksAtLast`).
//!
//! Read `cell`, `pair`, `latest`, `tolerance`, `profile` and `shaper`, in this order, and `specs/Tolerance.antt` and
//! `Chain.antt` beside them. What the proofs of the crates above need of a tolerance is, proved, in
//! `specs/ToleranceLemmas.antt`, `KindLemmas.antt`, `ChainLemmas.antt`, `MirrorLemmas.antt` and `ZeroLemmas.antt`.
//! Nothing here allocates or refuses.
#![tactic(auto)]

mod cell;
mod latest;
pub mod laws;
mod pair;
mod profile;
mod shaper;
mod tolerance;

pub use cell::Cell;
pub use latest::LatestFour;
pub use pair::{PairKind, kind};
pub use profile::Profile;
pub use shaper::{MAX_SHAPED, MIN_SHAPED, ShapeFault, Shaper};
pub use tolerance::{is_one, is_zero, may_begin_one};
