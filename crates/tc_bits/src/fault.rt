//! Why the digits and flags of a word are no address. Read next: `names`.

ghost use Rattle.std.specs.Prelude.{◌≡◌};
ghost use Rattle.tc_bits.specs.Fault.{name_of};

use crate::names;

/// The first fault of the fields of a word, in the order of these variants.
#[derive(Clone, Copy, Debug)]
pub enum FieldFault {
    /// The frame units are above 9.
    FrameUnits,
    /// The frames are not below the rate of the system.
    Frames,
    /// The second units are above 9.
    SecondUnits,
    /// The second tens are above 5.
    SecondTens,
    /// The minute units are above 9.
    MinuteUnits,
    /// The minute tens are above 5.
    MinuteTens,
    /// The hour units are above 9.
    HourUnits,
    /// The hours are above 23.
    Hours,
    /// Drop-frame counting drops this label.
    DroppedLabel,
}

impl FieldFault {
    /// The fault's name in a report.
    pub fn name(self) -> &'static str
        ensures { result.now ≡ name_of self }
    {
        match self {
            FieldFault::FrameUnits => names::FRAME_UNITS,
            FieldFault::Frames => names::FRAMES,
            FieldFault::SecondUnits => names::SECOND_UNITS,
            FieldFault::SecondTens => names::SECOND_TENS,
            FieldFault::MinuteUnits => names::MINUTE_UNITS,
            FieldFault::MinuteTens => names::MINUTE_TENS,
            FieldFault::HourUnits => names::HOUR_UNITS,
            FieldFault::Hours => names::HOURS,
            FieldFault::DroppedLabel => names::DROPPED_LABEL,
        }
    }
}
