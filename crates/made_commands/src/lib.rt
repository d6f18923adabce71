//! The commands that read nothing and make something: a recording (`ltc-make`), a line file (`vitc-make`),
//! the line of a load run (`ltc-load`), those of `number` and `label`, and what the program says of itself
//! (`help`, with the page of a command too, and `version`).
//!
//! What this crate promises, for all sinks:
//! - Each command pulls nothing, and writes its text whole, or a front of it if the sink failed: what it
//!   makes is in `specs/Made.antt`, `MadeLines.antt`, `Load.antt`, `Labels.antt`, `About.antt` and `Pages.antt`.
//! - What `ltc-make` and `vitc-make` make is read back, frame by frame and field by field, and of what
//!   `ltc-load` makes each word is read (`laws`).
//! - The number that is written is the place of the label in its day, and the text is read as the label
//!   (`specs/Labels.antt`, `NumbersTheLabel`, `NamesTheLabel`).
//!
//! Read `ltc_make`, `vitc_make`, `ltc_load` over `chance` and `divisors`, `labels`, `about` and `pages`. A
//! recording of frames is spelled here too, as one that is made.
#![tactic(auto)]

mod about;
mod chance;
mod divisors;
mod labels;
pub mod laws;
mod ltc_load;
mod ltc_make;
mod pages;
mod vitc_make;

pub use about::{Help, MANUAL, VERSION, Version};
pub use labels::{LabelOf, Number};
pub use ltc_load::LtcLoad;
pub use ltc_make::LtcMake;
pub use pages::{HelpOf, HelpStatuses};
pub use vitc_make::VitcMake;
