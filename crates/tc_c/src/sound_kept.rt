//! A maker of sound as it lies in memory of the caller's. Read next: `code_maker/src/sound.rt`.
use code_maker::SoundMaker;
use std::marker::Model;

/// A maker of sound, kept where the caller says.
#[derive(Drop)]
pub struct KeptSound {
    pub(crate) sound: SoundMaker,
}

impl Model for KeptSound {
    ghost use Rattle.code_maker.specs.Sound.{MadeSound};

    ghost Value = { MadeSound };

    ghost view = { λ s. s.sound };
}
