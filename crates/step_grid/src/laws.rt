//! The values of the limits.
ghost use Rattle.std.specs.Prelude.{◌≡◌};
ghost use Rattle.step_grid.specs.declared.grid.TheConstants.{MAX_REPEATS, MAX_SUMMED, MAX_TICKS};

/// How many steps a sample can be, how many samples a step, and how many ticks a step has, at most.
pub fn the_limits_of_a_grid()
    ensures repeats { MAX_REPEATS ≡ 8 }
    ensures summed { MAX_SUMMED ≡ 65_536 }
    ensures ticks { MAX_TICKS ≡ 65_536 }
{}
