//! Reading some neighbouring bits of a register. Read next: `reading` and `writing`.

ghost use Rattle.std.specs.Prelude.{◌≡◌, ◌+◌, ◌≤◌};
ghost use Rattle.tc_bits.specs.Register.{field};

/// The number whose bit k is bit `first + k` of the register. A field has 1 to 32 bits.
pub fn get_field(bits: u128, first: u32, width: u32) -> u32
    requires some { 1 ≤ width }
    requires narrow { width ≤ 32 }
    requires within { first + width ≤ 128 }
    ensures { result ≡ field bits first width }
{
    ((bits >> first) % (1 << width)) as u32
}
