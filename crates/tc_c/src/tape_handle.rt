//! A handle for C: where a reader of a tape lies in the caller's memory. Read next: `tape_opening`.
ghost use Rattle.tape_reader.specs.declared.reader.TapeReader.{TapeReader};
ghost use Rattle.tc_c.specs.contracts.tape_kept.KeptTape.{the_row};

use crate::tape_kept::KeptTape;
use std::marker::Model;

/// A reader of a tape that lies in memory of the caller's.
#[repr(C)]
#[derive(Drop)]
pub struct TcTape {
    pub(crate) at: *mut u8,
    ghost value: { TapeReader } by { the_row.coded },
}

impl Model for TcTape {
    ghost use Rattle.std.specs.Borrow.{full_share};
    ghost use Rattle.std.specs.Ptr.{lies_at};
    ghost use Rattle.tape_reader.specs.declared.reader.TapeReader.{TapeReader};
    ghost use Rattle.tc_c.specs.contracts.tape_kept.KeptTape.{the_row};

    ghost also_owns = { λ h. lies_at the_row full_share h.at h.value };
}

impl TcTape {
    ghost use Rattle.std.specs.Prelude.{◌≡◌};
    ghost use Rattle.std.specs.Borrow.{sem};
    ghost use Rattle.tc_c.specs.Lending.{LendsTape};

    /// The reader.
    pub(crate) fn reader(&mut self) -> &mut KeptTape
        ensures* writes_back { sem 𝓛 (LendsTape self.entry result) }
        ensures value { result.now ≡ self.old.value }
    {
        unsafe { &mut *self.at.cast::<KeptTape>() }
    }
}
