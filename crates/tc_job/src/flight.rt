//! How the frames of a recording are had.
use crate::witness::Witness;
use biphase::Profile;

/// How the frames of a recording are had: under which tolerance its words are read, what each is asked for, and
/// how many frames are invented in a row at most.
#[derive(Clone, Copy)]
pub struct Flight {
    /// How many frames are invented in a row, at most.
    pub limit: u8,
    /// The tolerance under which words are read.
    pub profile: Profile,
    /// What each word is asked for.
    pub witness: Witness,
}
