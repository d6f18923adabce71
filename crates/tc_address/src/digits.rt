//! Two decimal digits at once. Read next: `count`.
ghost use Rattle.std.specs.Prelude.{◌≡◌, ◌<◌};
ghost use Rattle.tc_address.specs.Spelling.{two_digits};

/// The digits of each number below a hundred.
static PAIRS: [u8; 200] = *b"\
00010203040506070809101112131415161718192021222324252627282930313233343536373839\
40414243444546474849505152535455565758596061626364656667686970717273747576777879\
8081828384858687888990919293949596979899";

/// The two decimal digits of a number below a hundred, in ASCII.
#[inline(always)]
#[tactic(auto, using(crate::proofs::TwoDigits::digits_at))]
pub fn two_digits(number: u32) -> [u8; 2]
    requires { number < 100 }
    ensures { result ≡ two_digits number }
{
    let at = 2 * number as usize;
    [PAIRS[at], PAIRS[at + 1]]
}
