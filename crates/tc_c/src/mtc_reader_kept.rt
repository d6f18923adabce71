//! A reader of MIDI Time Code as it lies in memory of the caller's. Read next: `mtc_reader_handle`.
use mtc_reader::MtcReader;
use std::marker::Model;

/// A reader of MIDI Time Code, kept where the caller says.
#[derive(Drop)]
pub struct KeptMtcReader {
    pub(crate) reader: MtcReader,
}

impl Model for KeptMtcReader {
    ghost use Rattle.mtc_reader.specs.declared.reader.MtcReader.{MtcReader};

    ghost Value = { MtcReader };

    ghost view = { λ s. s.reader };
}
