//! A reader as it lies in memory of the caller's. Read next: `write`.
use sound_reader::SoundReader;
use std::marker::Model;

/// A reader of sound, kept where the caller says.
#[derive(Drop)]
pub struct KeptReader {
    pub(crate) reader: SoundReader,
}

impl Model for KeptReader {
    ghost use Rattle.sound_reader.specs.Sound.{SoundState};

    ghost Value = { SoundState };

    ghost view = { λ s. s.reader };
}
