//! The words of a recording, read in either direction.
//!
//! A stretch of cells, as `cell_tracker` finds it, is a row of bits. Each 80 neighbours among them
//! are a window, and a window that ends in the sync word of SMPTE 12M, as read forward or as
//! read backward, is a candidate for a word of linear time code. The reader takes one interval at a
//! time and answers what it brought: a word, a candidate with a fault in its fields, or the end of a
//! stretch. It keeps the latest 80 bits and the ticks of the latest 81 boundaries of cells, so all
//! that it keeps is of a fixed size.
//!
//! What this crate promises:
//! - The events of a list of intervals are the candidates of all windows of its stretches, and its
//!   breaks, in order (`specs/ListEvents.antt`, `AreEvents`). Each list has one list of them, and
//!   the events of its front come first (`laws`).
//! - `DirectionReader` stands for the intervals that it was fed and for their events
//!   (`specs/StandsFor.antt`). `feed`, and `step` with `events` after it, give exactly those that are
//!   new, under each tolerance (clause `stands`). Nearly every interval brings nothing, and then
//!   `step` is enough.
//! - The events tell a tape within the tolerance (`specs/Tape.antt`). If the tolerance looks at the
//!   last cell alone, they find it again between damage (`specs/Tape.antt`), and mirror it in reverse
//!   order (`specs/Mirror.antt`): clauses `truth`, `damage` and `mirror` of `feed`.
//! - `FirmReader` needs a witness beside each word: another word's sync word on the side away from its
//!   own, or the edge of its stretch (`specs/Firm.antt`, `AreFirmEvents`). It judges the events of a
//!   `DirectionReader` by the bits beside them, and stands for that reader's intervals and for the events
//!   that it has given of them (`specs/FirmReader.antt`, and of the list alone `specs/FirmTold.antt`,
//!   `AreTold`, over what is known of each candidate by the cells beside it, `specs/FirmKnown.antt`), and
//!   `finish` gives what still waits (clause `all`). At most one word waits, and one candidate behind it.
//!   What a witness changes and what not is in `firm_laws`.
//! - `ConsecutiveReader` tells a word without a witness all the same if the word that follows it on the
//!   tape is beside it, begins or ends where it does, and has the next label (`specs/Consecutive.antt`,
//!   `AreConsecutiveEvents`). It stands for the events of a `FirmReader` and for those that it has given of
//!   them (`specs/ConsecutiveStep.antt`, and of the list alone `specs/ConsecutiveTold.antt`,
//!   `AreConsecutiveTold`), and `finish` gives what is held (clause `all`). At most one word is held, and at
//!   most two words are told with an interval. `consecutive_laws` says what the next word changes and what
//!   not.
//! - `CountedReader` tells a word only if another one counts on with it: the word before it, whatever came
//!   between, or what comes next (`specs/Counted.antt`, `AreCountedEvents`). A word counts on that is a frame
//!   or two behind, in label and place. It stands for the events of a `DirectionReader` and for what it has
//!   given of them (`specs/CountedStep.antt`, and of the list alone `specs/CountedTold.antt`,
//!   `AreCountedTold`), and `finish` gives what is held. At most one word is held, and at most two are told
//!   with an interval. `counted_laws` says what it changes and what not.
//! - `Reading` is what the four readers have in common (`specs/Reading.antt`): whatever words are asked for, each
//!   tells the events of its intervals, in turn, and up to which tick all is told. A list has one reading, and
//!   what is told comes first (`reading_laws`). The commands and the library read by this trait alone.
//! - A window holds the latest of the bits that it was given (`specs/HoldsBits.antt`).
//! - `window_events` gives the candidates of one window, the forward one first
//!   (`specs/Candidate.antt`).
//! - The numbers of an event are in the ranges of `specs/Brings.antt`.
//!
//! Read `reader`, `tracker`, `state`, `latest_cells`, `latest_bits`, `window`, `boundaries`, `brought`,
//! `candidates` and `event`, in this order: the way of an interval. Then `firm_reader`, `beside`,
//! `waiting` and `firm_event`, a judge of what that reader tells, and `consecutive`, `consecutive_event`
//! and `neighbours`, a judge of what this one tells; `counted` and `counting`, a judge of all words by the
//! words beside them; and `reading`, `witness` and `reading_laws`, what all
//! of them are.
//! `specs/Invariants.antt` is what the code keeps. `report_text` prints the events. Nothing
//! here allocates.
#![tactic(auto)]

mod beside;
mod boundaries;
mod brought;
mod candidates;
mod consecutive;
mod consecutive_event;
pub mod consecutive_laws;
mod counted;
pub mod counted_laws;
mod counting;
mod event;
mod firm_event;
pub mod firm_laws;
mod firm_reader;
mod latest_bits;
mod latest_cells;
pub mod laws;
mod neighbours;
mod reader;
mod reading;
pub mod reading_laws;
mod state;
mod tracker;
mod waiting;
mod window;
mod witness;

pub use brought::Brought;
pub use candidates::window_events;
pub use consecutive::ConsecutiveReader;
pub use consecutive_event::ConsecutiveEvents;
pub use counted::CountedReader;
pub use event::{Event, Events};
pub use firm_event::{FirmEvent, FirmEvents};
pub use firm_reader::FirmReader;
pub use reader::DirectionReader;
pub use reading::Reading;
pub use window::{Filling, FromFilling, Full};
pub use witness::Witness;
