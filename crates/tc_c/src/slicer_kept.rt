//! A slicer of sound as it lies in memory of the caller's. Read next: `sound_reader/src/slicer.rt`.
use sound_reader::SoundSlicer;
use std::marker::Model;

/// A slicer of sound, kept where the caller says.
#[derive(Drop)]
pub struct KeptSlicer {
    pub(crate) slicer: SoundSlicer,
}

impl Model for KeptSlicer {
    ghost use Rattle.sound_reader.specs.Slicer.{SlicerState};

    ghost Value = { SlicerState };

    ghost view = { λ s. s.slicer };
}
