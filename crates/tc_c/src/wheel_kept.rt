//! A flywheel as it lies in memory of the caller's. Read next: `wheel_write`.
use frame_wheel::FrameWheel;
use std::marker::Model;

/// A flywheel, kept where the caller says.
#[derive(Drop)]
pub struct KeptWheel {
    pub(crate) wheel: FrameWheel,
}

impl Model for KeptWheel {
    ghost use Rattle.frame_wheel.specs.Wheel.{WheelState};

    ghost Value = { WheelState };

    ghost view = { λ s. s.wheel };
}
