//! The digits of a word as they are in it, whether or not they are an address. Read next: `checking`.

use crate::flags::Flags;
use crate::user_bits::UserBits;

/// The digits of a word, its flag bits and its user bits. Units have four bits, from 0 to 15, and
/// tens have two or three, from 0 to 7.
#[derive(Clone, Copy)]
pub struct RawFields {
    pub frame_units: u32,
    pub frame_tens: u32,
    pub second_units: u32,
    pub second_tens: u32,
    pub minute_units: u32,
    pub minute_tens: u32,
    pub hour_units: u32,
    pub hour_tens: u32,
    pub flags: Flags,
    pub user: UserBits,
}
