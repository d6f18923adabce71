//! How many frames a second has. Read next: `direction`.
ghost use Rattle.std.specs.Prelude.{◌≡◌};
ghost use Rattle.tc_address.specs.Count.{rate_of};

/// The frames that a second has. A recording says its system, and it is never guessed.
#[derive(Clone, Copy)]
pub enum System {
    /// 24 frames a second.
    F24,
    /// 25 frames a second.
    F25,
    /// 30 frames a second, with drop-frame counting and without.
    F30,
}

/// How many frames a second of the system has.
pub fn rate(system: System) -> u32
    ensures { result ≡ rate_of system }
{
    match system {
        System::F24 => 24,
        System::F25 => 25,
        System::F30 => 30,
    }
}
