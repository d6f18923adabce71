//! What follows from the definitions alone.
ghost use Rattle.std.specs.Prelude.{◌≡◌};
ghost use Rattle.chase_command.specs.declared.chasing.TheConstants.{MAX_SCRIPT};

/// A script of `chase` has a mebibyte at most.
pub fn a_script_has_this_limit()
    ensures { MAX_SCRIPT ≡ 1048576 }
{}
