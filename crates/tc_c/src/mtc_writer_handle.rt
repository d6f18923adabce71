//! A handle for C: where a writer of MIDI Time Code lies in the caller's memory. Read next: `mtc_writer_opening`.
ghost use Rattle.std.specs.Prelude.{Option};
ghost use Rattle.quarter_frame.specs.declared.half.Half.{Half};
ghost use Rattle.tc_c.specs.contracts.mtc_writer_kept.KeptMtcWriter.{the_row};

use crate::mtc_writer_kept::KeptMtcWriter;
use std::marker::Model;

/// A writer of MIDI Time Code that lies in memory of the caller's.
#[repr(C)]
#[derive(Drop)]
pub struct TcMtcWriter {
    pub(crate) at: *mut u8,
    ghost value: { Option Half } by { the_row.coded },
}

impl Model for TcMtcWriter {
    ghost use Rattle.std.specs.Borrow.{full_share};
    ghost use Rattle.std.specs.Ptr.{lies_at};
    ghost use Rattle.std.specs.Prelude.{Option};
    ghost use Rattle.quarter_frame.specs.declared.half.Half.{Half};
    ghost use Rattle.tc_c.specs.contracts.mtc_writer_kept.KeptMtcWriter.{the_row};

    ghost also_owns = { λ h. lies_at the_row full_share h.at h.value };
}

impl TcMtcWriter {
    ghost use Rattle.std.specs.Prelude.{◌≡◌};
    ghost use Rattle.std.specs.Borrow.{sem};
    ghost use Rattle.tc_c.specs.Lending.{LendsMtcWriter};

    /// It.
    pub(crate) fn writer(&mut self) -> &mut KeptMtcWriter
        ensures* writes_back { sem 𝓛 (LendsMtcWriter self.entry result) }
        ensures value { result.now ≡ self.old.value }
    {
        unsafe { &mut *self.at.cast::<KeptMtcWriter>() }
    }
}
