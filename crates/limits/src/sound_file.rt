//! The limits of a sound file. Read next: `laws`.

/// The most tracks of a sound file. The least is 1.
pub const MAX_TRACKS: u32 = 64;
