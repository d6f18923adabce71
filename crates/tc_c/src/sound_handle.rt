//! A handle for C: where a maker of sound lies in the caller's memory. Read next: `sound_opening`.
ghost use Rattle.code_maker.specs.Sound.{MadeSound};
ghost use Rattle.tc_c.specs.contracts.sound_kept.KeptSound.{the_row};

use crate::sound_kept::KeptSound;
use std::marker::Model;

/// A maker of sound that lies in memory of the caller's.
#[repr(C)]
#[derive(Drop)]
pub struct TcSound {
    pub(crate) at: *mut u8,
    ghost value: { MadeSound } by { the_row.coded },
}

impl Model for TcSound {
    ghost use Rattle.std.specs.Borrow.{full_share};
    ghost use Rattle.std.specs.Ptr.{lies_at};
    ghost use Rattle.code_maker.specs.Sound.{MadeSound};
    ghost use Rattle.tc_c.specs.contracts.sound_kept.KeptSound.{the_row};

    ghost also_owns = { λ h. lies_at the_row full_share h.at h.value };
}

impl TcSound {
    ghost use Rattle.std.specs.Prelude.{◌≡◌};
    ghost use Rattle.std.specs.Borrow.{sem};
    ghost use Rattle.tc_c.specs.Lending.{LendsSound};

    /// The maker.
    pub(crate) fn maker(&mut self) -> &mut KeptSound
        ensures* writes_back { sem 𝓛 (LendsSound self.entry result) }
        ensures value { result.now ≡ self.old.value }
    {
        unsafe { &mut *self.at.cast::<KeptSound>() }
    }
}
