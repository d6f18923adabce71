//! How far the transport slips in a step. Read next: `generator/src/generator.rt`.
ghost use Rattle.std.specs.Prelude.{◌≡◌, ◌≤◌, unsigned_abs};
ghost use Rattle.code_chase.specs.CodeTrace.{slip_of};

/// The slip that a drawn value makes, in subframes, from `-bound` to `bound`. It is taken from the high
/// bits of the value, which are the better ones.
pub(crate) fn slip_of(bound: u32, value: u64) -> i32
    requires { bound ≤ 1_000 }
    ensures value { result ≡ slip_of bound value }
    ensures within { unsigned_abs result ≤ bound }
{
    let places = u64::from(2 * bound + 1);
    ((value >> 33) % places) as i32 - bound as i32
}
