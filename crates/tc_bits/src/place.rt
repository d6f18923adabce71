//! Where a field is in a register of bits. Read next: `register`.

ghost use Rattle.std.specs.Prelude.{◌≡◌, ◌*◌, ◌^◌, ◌<◌};
ghost use Rattle.tc_bits.specs.Register.{IsPlace, number_in};

use crate::register::get_field;

/// Some neighbouring bits of a register, the least significant one first.
#[derive(Clone, Copy)]
pub struct Place {
    /// The number of the field's least significant bit.
    pub first: u32,
    /// How many bits the field has, from 1 to 32.
    pub width: u32,
}

impl Place {
    /// The number in this place of the register.
    pub fn number_in(self, bits: u128) -> u32
        requires { IsPlace self }
        ensures { result ≡ number_in self bits }
    {
        get_field(bits, self.first, self.width)
    }

    /// The register that holds the number in this place, and zeros elsewhere.
    pub fn holding(self, number: u32) -> u128
        requires place { IsPlace self }
        requires fits { number < 2 ^ self.width }
        ensures { result ≡ number * 2 ^ self.first }
    {
        (number as u128) << self.first
    }
}
