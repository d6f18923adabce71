//! How long a line may last. Read next: `reading`.

/// The shortest line, in ticks.
pub const MIN_LINE_LENGTH: u32 = 460;

/// The longest line, in ticks.
pub const MAX_LINE_LENGTH: u32 = 65_535;
