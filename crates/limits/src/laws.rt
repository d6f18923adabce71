//! The values of the limits, spelled a second time: if code and definition read one constant, no contract of
//! theirs would notice another value.
ghost use Rattle.std.specs.Prelude.{◌≡◌, ◌-◌, ◌^◌};
ghost use Rattle.limits.specs.declared.recording.TheConstants.{MAX_INTERVAL, MAX_INTERVALS, MAX_TICK_RATE};
ghost use Rattle.limits.specs.declared.sound_file.TheConstants.{MAX_TRACKS};

/// An interval has 24 bits, a recording a thousand million of them and a hundred million ticks a second at most; a
/// sound file has 64 tracks at most.
pub fn the_limits_are_these()
    ensures interval { MAX_INTERVAL ≡ 2 ^ 24 - 1 }
    ensures intervals { MAX_INTERVALS ≡ 1000000000 }
    ensures tick_rate { MAX_TICK_RATE ≡ 100000000 }
    ensures tracks { MAX_TRACKS ≡ 64 }
{}
