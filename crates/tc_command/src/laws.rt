//! The numbers of the way of an input, spelled a second time.
ghost use Rattle.std.specs.Prelude.{◌≡◌};
ghost use Rattle.tc_command.specs.declared.inlet.TheConstants.{KEPT, PULLED};

/// A pull asks for so many bytes, and an engine leaves fewer than so many.
pub fn the_bytes_of_a_pull_are_these()
    ensures pulled { PULLED ≡ 4_096 }
    ensures kept { KEPT ≡ 4_096 }
{}
