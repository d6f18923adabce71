//! A handle for C: where a reader lies in the caller's memory. Read next: `opening`.
ghost use Rattle.sound_reader.specs.Sound.{SoundState};
ghost use Rattle.tc_c.specs.contracts.kept.KeptReader.{the_row};

use crate::kept::KeptReader;
use std::marker::Model;

/// A reader that lies in memory of the caller's.
#[repr(C)]
#[derive(Drop)]
pub struct TcReader {
    pub(crate) at: *mut u8,
    ghost value: { SoundState } by { the_row.coded },
}

impl Model for TcReader {
    ghost use Rattle.std.specs.Borrow.{full_share};
    ghost use Rattle.std.specs.Ptr.{lies_at};
    ghost use Rattle.sound_reader.specs.Sound.{SoundState};
    ghost use Rattle.tc_c.specs.contracts.kept.KeptReader.{the_row};

    ghost also_owns = { λ h. lies_at the_row full_share h.at h.value };
}

impl TcReader {
    ghost use Rattle.std.specs.Prelude.{◌≡◌};
    ghost use Rattle.std.specs.Borrow.{sem};
    ghost use Rattle.tc_c.specs.Lending.{LendsReader};

    /// The reader.
    pub(crate) fn reader(&mut self) -> &mut KeptReader
        ensures* writes_back { sem 𝓛 (LendsReader self.entry result) }
        ensures value { result.now ≡ self.old.value }
    {
        unsafe { &mut *self.at.cast::<KeptReader>() }
    }
}
