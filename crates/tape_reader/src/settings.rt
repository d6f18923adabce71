//! How a tape is read. Read next: `reader`.

use biphase::Profile;
use direction_reader::Witness;
use tc_address::System;

/// How a tape is read. Each of them has its meaning with each of the others.
#[derive(Clone, Copy)]
pub struct TapeSettings {
    /// How many frames a second the code has.
    pub system: System,
    /// How much the cells may differ.
    pub profile: Profile,
    /// What each word is asked for.
    pub witness: Witness,
}
