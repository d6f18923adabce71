//! The names of the faults of a sound file, as notes print them.

/// The name of `WaveFault::Riff`.
pub(crate) const RIFF_NAME: &str = "riff";

/// The name of `WaveFault::Wave`.
pub(crate) const WAVE_NAME: &str = "wave";

/// The name of `WaveFault::Ds64`.
pub(crate) const DS64_NAME: &str = "ds64";

/// The name of `WaveFault::Format`.
pub(crate) const FORMAT_NAME: &str = "format";

/// The name of `WaveFault::Track`.
pub(crate) const TRACK_NAME: &str = "track";

/// The name of `WaveFault::Truncated`.
pub(crate) const TRUNCATED_NAME: &str = "truncated";
