//! The names of the faults of the fields, as lines print them. This project's own.

/// The name of `FieldFault::FrameUnits`.
pub const FRAME_UNITS: &str = "frame-units";

/// The name of `FieldFault::Frames`.
pub const FRAMES: &str = "frames";

/// The name of `FieldFault::SecondUnits`.
pub const SECOND_UNITS: &str = "second-units";

/// The name of `FieldFault::SecondTens`.
pub const SECOND_TENS: &str = "second-tens";

/// The name of `FieldFault::MinuteUnits`.
pub const MINUTE_UNITS: &str = "minute-units";

/// The name of `FieldFault::MinuteTens`.
pub const MINUTE_TENS: &str = "minute-tens";

/// The name of `FieldFault::HourUnits`.
pub const HOUR_UNITS: &str = "hour-units";

/// The name of `FieldFault::Hours`.
pub const HOURS: &str = "hours";

/// The name of `FieldFault::DroppedLabel`.
pub const DROPPED_LABEL: &str = "dropped-label";
