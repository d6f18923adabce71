//! A handle for C: where a maker of cells lies in the caller's memory. Read next: `maker_opening`.
ghost use Rattle.biphase.specs.Shape.{Shape};
ghost use Rattle.tc_c.specs.contracts.maker_kept.KeptMaker.{the_row};

use crate::maker_kept::KeptMaker;
use std::marker::Model;

/// A maker of cells that lies in memory of the caller's.
#[repr(C)]
#[derive(Drop)]
pub struct TcMaker {
    pub(crate) at: *mut u8,
    ghost value: { Shape } by { the_row.coded },
}

impl Model for TcMaker {
    ghost use Rattle.std.specs.Borrow.{full_share};
    ghost use Rattle.std.specs.Ptr.{lies_at};
    ghost use Rattle.biphase.specs.Shape.{Shape};
    ghost use Rattle.tc_c.specs.contracts.maker_kept.KeptMaker.{the_row};

    ghost also_owns = { λ h. lies_at the_row full_share h.at h.value };
}

impl TcMaker {
    ghost use Rattle.std.specs.Prelude.{◌≡◌};
    ghost use Rattle.std.specs.Borrow.{sem};
    ghost use Rattle.tc_c.specs.Lending.{LendsMaker};

    /// The maker.
    pub(crate) fn maker(&mut self) -> &mut KeptMaker
        ensures* writes_back { sem 𝓛 (LendsMaker self.entry result) }
        ensures value { result.now ≡ self.old.value }
    {
        unsafe { &mut *self.at.cast::<KeptMaker>() }
    }
}
