//! A writer of MIDI Time Code as it lies in memory of the caller's. Read next: `mtc_writer_handle`.
use quarter_frame::QuarterWriter;
use std::marker::Model;

/// A writer of MIDI Time Code, kept where the caller says.
#[derive(Drop)]
pub struct KeptMtcWriter {
    pub(crate) writer: QuarterWriter,
}

impl Model for KeptMtcWriter {
    ghost use Rattle.std.specs.Prelude.{Option};
    ghost use Rattle.quarter_frame.specs.declared.half.Half.{Half};

    ghost Value = { Option Half };

    ghost view = { λ s. s.writer };
}
