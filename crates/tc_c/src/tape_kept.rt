//! A reader of a tape as it lies in memory of the caller's. Read next: `tape_write`.
use std::marker::Model;
use tape_reader::TapeReader;

/// A reader of a tape, kept where the caller says.
#[derive(Drop)]
pub struct KeptTape {
    pub(crate) tape: TapeReader,
}

impl Model for KeptTape {
    ghost use Rattle.tape_reader.specs.declared.reader.TapeReader.{TapeReader};

    ghost Value = { TapeReader };

    ghost view = { λ s. s.tape };
}
