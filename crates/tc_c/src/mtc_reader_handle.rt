//! A handle for C: where a reader of MIDI Time Code lies in the caller's memory. Read next: `mtc_reader_opening`.
ghost use Rattle.mtc_reader.specs.declared.reader.MtcReader.{MtcReader};
ghost use Rattle.tc_c.specs.contracts.mtc_reader_kept.KeptMtcReader.{the_row};

use crate::mtc_reader_kept::KeptMtcReader;
use std::marker::Model;

/// A reader of MIDI Time Code that lies in memory of the caller's.
#[repr(C)]
#[derive(Drop)]
pub struct TcMtcReader {
    pub(crate) at: *mut u8,
    ghost value: { MtcReader } by { the_row.coded },
}

impl Model for TcMtcReader {
    ghost use Rattle.std.specs.Borrow.{full_share};
    ghost use Rattle.std.specs.Ptr.{lies_at};
    ghost use Rattle.mtc_reader.specs.declared.reader.MtcReader.{MtcReader};
    ghost use Rattle.tc_c.specs.contracts.mtc_reader_kept.KeptMtcReader.{the_row};

    ghost also_owns = { λ h. lies_at the_row full_share h.at h.value };
}

impl TcMtcReader {
    ghost use Rattle.std.specs.Prelude.{◌≡◌};
    ghost use Rattle.std.specs.Borrow.{sem};
    ghost use Rattle.tc_c.specs.Lending.{LendsMtcReader};

    /// It.
    pub(crate) fn reader(&mut self) -> &mut KeptMtcReader
        ensures* writes_back { sem 𝓛 (LendsMtcReader self.entry result) }
        ensures value { result.now ≡ self.old.value }
    {
        unsafe { &mut *self.at.cast::<KeptMtcReader>() }
    }
}
