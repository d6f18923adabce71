//! Where the fields of a word are in its register. Read next: `place`.

/// A word's table: the number of the first bit of each field, which is its least significant one. A
/// unit and a user group have four bits, a flag has one, the tens of frames and hours have two, and
/// those of seconds and minutes three (SMPTE 12M, alike in each kind of word).
#[derive(Clone, Copy)]
pub struct Table {
    pub frame_units: u32,
    pub frame_tens: u32,
    pub second_units: u32,
    pub second_tens: u32,
    pub minute_units: u32,
    pub minute_tens: u32,
    pub hour_units: u32,
    pub hour_tens: u32,
    pub drop_frame: u32,
    pub colour_frame: u32,
    pub group_flag_zero: u32,
    pub group_flag_one: u32,
    pub group_flag_two: u32,
    pub user_one: u32,
    pub user_two: u32,
    pub user_three: u32,
    pub user_four: u32,
    pub user_five: u32,
    pub user_six: u32,
    pub user_seven: u32,
    pub user_eight: u32,
}
