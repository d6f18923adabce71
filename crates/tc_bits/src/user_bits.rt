//! The user bits of a word: eight groups of four bits each.

ghost use Rattle.std.specs.Prelude.{◌≡◌, ◌^◌, ◌<◌};

use std::marker::Model;

/// The eight user groups of a word, four bits each, kept bit for bit and not interpreted. In
/// clauses they are one number below 2 to the 32nd, group 1 least significant.
#[derive(Clone, Copy, PartialEq, Eq)]
pub struct UserBits {
    groups: u32,
}

impl Model for UserBits {
    ghost use Rattle.std.specs.Prelude.{ℕ, ◌^◌, ◌<◌};

    ghost Value = { ℕ };

    ghost view = { λ user. user.groups };

    ghost invariant = { λ user. user.groups < 2 ^ 32 };

    ghost inverse = { λ groups. record { groups = groups } };
}

impl UserBits {
    /// Takes group g, from 1 to 8, from the bits 4(g - 1) to 4(g - 1) + 3.
    pub fn new(groups: u32) -> UserBits
        ensures { result ≡ groups }
    {
        UserBits { groups }
    }

    /// The number that has group g, from 1 to 8, in its bits 4(g - 1) to 4(g - 1) + 3.
    pub fn groups(&self) -> u32
        ensures value { result ≡ self.now }
        ensures eight { self.now < 2 ^ 32 }
    {
        self.groups
    }
}
