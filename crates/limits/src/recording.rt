//! The limits of a recording, which has intervals between the transitions of a tape. Read next: `sound_file`.

/// The greatest length of an interval, in ticks. The least is 1.
pub const MAX_INTERVAL: u32 = 16_777_215;

/// The most intervals of a recording that are read.
pub const MAX_INTERVALS: u64 = 1_000_000_000;

/// The greatest tick rate of a recording, in ticks a second. The least is 1.
pub const MAX_TICK_RATE: u32 = 100_000_000;
