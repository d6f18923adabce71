//! The flag bits of a word. Read next: `user_bits`.

/// The flag bits of a word, kept bit for bit.
#[derive(Clone, Copy, PartialEq, Eq)]
pub struct Flags {
    /// The drop-frame flag: bit 10 of an LTC word, bit 14 of a VITC line. At 30 frames it says
    /// that labels are dropped, and at 24 and 25 it has no effect.
    pub drop_frame: bool,
    /// The colour-frame flag: bit 11 of an LTC word, bit 15 of a VITC line. It has no effect.
    pub colour_frame: bool,
    /// Binary group flag 0.
    pub group_flag_zero: bool,
    /// Binary group flag 1.
    pub group_flag_one: bool,
    /// Binary group flag 2.
    pub group_flag_two: bool,
}
