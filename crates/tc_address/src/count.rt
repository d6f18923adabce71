//! How the frames of a day are counted, and the system of each count. Read next: `label`.
ghost use Rattle.std.specs.Prelude.{◌≡◌};
ghost use Rattle.tc_address.specs.Count.{system_with};

use crate::system::System;

/// How the frames of a day are counted.
#[derive(Clone, Copy, PartialEq, Eq)]
pub enum Count {
    /// 24 frames a second.
    C24,
    /// 25 frames a second.
    C25,
    /// 30 frames a second.
    C30,
    /// 30 frames a second, drop-frame: frames 0 and 1 of each minute that is no multiple of ten are
    /// dropped.
    Drop30,
}

/// The system that the count belongs to.
pub fn system_of(count: Count) -> System
    ensures { result ≡ system_with count }
{
    match count {
        Count::C24 => System::F24,
        Count::C25 => System::F25,
        Count::C30 | Count::Drop30 => System::F30,
    }
}
