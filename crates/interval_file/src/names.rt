//! The names of the faults of an interval file, as notes print them. This project's own.

/// The name of `IntervalFileFault::Magic`.
pub const MAGIC_NAME: &str = "magic";

/// The name of `IntervalFileFault::Version`.
pub const VERSION_NAME: &str = "version";

/// The name of `IntervalFileFault::System`.
pub const SYSTEM_NAME: &str = "system";

/// The name of `IntervalFileFault::Reserved`.
pub const RESERVED_NAME: &str = "reserved";

/// The name of `IntervalFileFault::TickRate`.
pub const TICK_RATE_NAME: &str = "tick-rate";

/// The name of `IntervalFileFault::Interval`.
pub const INTERVAL_NAME: &str = "interval";

/// The name of `IntervalFileFault::Truncated`.
pub const TRUNCATED_NAME: &str = "truncated";
