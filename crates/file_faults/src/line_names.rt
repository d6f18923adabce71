//! The names of the faults of a line file, as notes print them. This project's own.

/// The name of `LineFileFault::Magic`.
pub const MAGIC_NAME: &str = "magic";

/// The name of `LineFileFault::Version`.
pub const VERSION_NAME: &str = "version";

/// The name of `LineFileFault::System`.
pub const SYSTEM_NAME: &str = "system";

/// The name of `LineFileFault::Reserved`.
pub const RESERVED_NAME: &str = "reserved";

/// The name of `LineFileFault::LineLength`.
pub const LINE_LENGTH_NAME: &str = "line-length";

/// The name of `LineFileFault::LineCount`.
pub const LINE_COUNT_NAME: &str = "line-count";

/// The name of `LineFileFault::RunCount`.
pub const RUN_COUNT_NAME: &str = "run-count";

/// The name of `LineFileFault::Run`.
pub const RUN_NAME: &str = "run";

/// The name of `LineFileFault::Truncated`.
pub const TRUNCATED_NAME: &str = "truncated";
