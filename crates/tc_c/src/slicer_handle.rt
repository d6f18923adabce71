//! A handle for C: where a slicer of sound lies in the caller's memory. Read next: `slicer_opening`.
ghost use Rattle.sound_reader.specs.Slicer.{SlicerState};
ghost use Rattle.tc_c.specs.contracts.slicer_kept.KeptSlicer.{the_row};

use crate::slicer_kept::KeptSlicer;
use std::marker::Model;

/// A slicer of sound that lies in memory of the caller's.
#[repr(C)]
#[derive(Drop)]
pub struct TcSlicer {
    pub(crate) at: *mut u8,
    ghost value: { SlicerState } by { the_row.coded },
}

impl Model for TcSlicer {
    ghost use Rattle.std.specs.Borrow.{full_share};
    ghost use Rattle.std.specs.Ptr.{lies_at};
    ghost use Rattle.sound_reader.specs.Slicer.{SlicerState};
    ghost use Rattle.tc_c.specs.contracts.slicer_kept.KeptSlicer.{the_row};

    ghost also_owns = { λ h. lies_at the_row full_share h.at h.value };
}

impl TcSlicer {
    ghost use Rattle.std.specs.Prelude.{◌≡◌};
    ghost use Rattle.std.specs.Borrow.{sem};
    ghost use Rattle.tc_c.specs.Lending.{LendsSlicer};

    /// The slicer.
    pub(crate) fn slicer(&mut self) -> &mut KeptSlicer
        ensures* writes_back { sem 𝓛 (LendsSlicer self.entry result) }
        ensures value { result.now ≡ self.old.value }
    {
        unsafe { &mut *self.at.cast::<KeptSlicer>() }
    }
}
