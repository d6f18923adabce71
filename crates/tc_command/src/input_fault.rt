//! The fault of an input, whatever a command reads. Read next: `stop`.
use file_faults::{LineFileFault, WaveFault};
use interval_file::IntervalFileFault;
use label_text::LineFault;

/// The first fault of an input.
#[derive(Clone, Copy)]
pub enum InputFault {
    /// Of an interval file.
    Intervals(IntervalFileFault),
    /// Of a line file.
    Lines(LineFileFault),
    /// Of a sound file.
    Sound(WaveFault),
    /// Raw samples end inside a sample. The place is the number of their bytes.
    HalfSample(u64),
    /// Raw pixels end inside a field. The place is the number of their bytes.
    HalfField(u64),
    /// Of a text of labels.
    Labels(LineFault),
}
