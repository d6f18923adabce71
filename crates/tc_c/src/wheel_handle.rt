//! A handle for C: where a flywheel lies in the caller's memory. Read next: `wheel_opening`.
ghost use Rattle.frame_wheel.specs.Wheel.{WheelState};
ghost use Rattle.tc_c.specs.contracts.wheel_kept.KeptWheel.{the_row};

use crate::wheel_kept::KeptWheel;
use std::marker::Model;

/// A flywheel that lies in memory of the caller's.
#[repr(C)]
#[derive(Drop)]
pub struct TcWheel {
    pub(crate) at: *mut u8,
    ghost value: { WheelState } by { the_row.coded },
}

impl Model for TcWheel {
    ghost use Rattle.std.specs.Borrow.{full_share};
    ghost use Rattle.std.specs.Ptr.{lies_at};
    ghost use Rattle.frame_wheel.specs.Wheel.{WheelState};
    ghost use Rattle.tc_c.specs.contracts.wheel_kept.KeptWheel.{the_row};

    ghost also_owns = { λ h. lies_at the_row full_share h.at h.value };
}

impl TcWheel {
    ghost use Rattle.std.specs.Prelude.{◌≡◌};
    ghost use Rattle.std.specs.Borrow.{sem};
    ghost use Rattle.tc_c.specs.Lending.{LendsWheel};

    /// The flywheel.
    pub(crate) fn wheel(&mut self) -> &mut KeptWheel
        ensures* writes_back { sem 𝓛 (LendsWheel self.entry result) }
        ensures value { result.now ≡ self.old.value }
    {
        unsafe { &mut *self.at.cast::<KeptWheel>() }
    }
}
