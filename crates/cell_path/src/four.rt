//! What 32 bits keep of the numbers of four steps in a row. Read next: `lengths`.
ghost use Rattle.std.specs.Prelude.{◌≡◌, ◌⊎◌, ℕ, ◌*◌, ◌^◌, ◌<◌, ℤ, pos, ◌+ℤ◌, ◌-ℤ◌, ◌≤ℤ◌, ◌<ℤ◌, true, false};
ghost use Rattle.cell_path.specs.Four.{at_step, low, AreNear};

/// The numbers of four steps, and a code that goes with each: a bit, a way or an end.
#[derive(Clone, Copy)]
pub struct Four {
    pub numbers: [u32; 4],
    pub codes: [u32; 4],
}

/// A number, and the code that goes with it.
#[derive(Clone, Copy)]
struct One {
    number: u32,
    code: u32,
}

/// Whether a number is below another.
#[inline(always)]
pub(crate) fn less(number: u32, other: u32) -> bool
    ensures yes { (x y : ℤ) → number ≡ low x → other ≡ low y → AreNear x y → result ≡ true → x <ℤ y }
    ensures no { (x y : ℤ) → number ≡ low x → other ≡ low y → AreNear x y → result ≡ false → y ≤ℤ x }
{
    number.wrapping_sub(other) >= 1 << 31
}

/// The greater of two. Of equal ones it is the first.
#[inline(always)]
fn pick(number: u32, code: u32, other: u32, new: u32) -> One
    ensures stays { (x y : ℤ) → number ≡ low x → other ≡ low y → AreNear x y → y ≤ℤ x
        → result ≡ record { number = number; code = code } }
    ensures comes { (x y : ℤ) → number ≡ low x → other ≡ low y → AreNear x y → x <ℤ y
        → result ≡ record { number = other; code = new } }
    ensures either { (result.code ≡ code) ⊎ (result.code ≡ new) }
{
    if less(number, other) {
        One {
            number: other,
            code: new,
        }
    } else {
        One { number, code }
    }
}

impl Four {
    /// Numbers with the first code.
    #[inline(always)]
    pub(crate) fn first(numbers: [u32; 4]) -> Four
        ensures numbers { result.numbers ≡ numbers }
        ensures codes { (step : ℕ) → at_step result.codes step ≡ 0 }
    {
        Four {
            numbers,
            codes: [0; 4],
        }
    }

    /// The greater of two at each step, the second of which has this code. Of equal ones it is the first.
    #[inline(always)]
    pub(crate) fn or(self, others: [u32; 4], code: u32) -> Four
        ensures stays { (step : ℕ) (x y : ℤ) → step < 4 → at_step self.numbers step ≡ low x
            → at_step others step ≡ low y → AreNear x y → y ≤ℤ x
            → (at_step result.numbers step ≡ low x) × (at_step result.codes step ≡ at_step self.codes step) }
        ensures comes { (step : ℕ) (x y : ℤ) → step < 4 → at_step self.numbers step ≡ low x
            → at_step others step ≡ low y → AreNear x y → x <ℤ y
            → (at_step result.numbers step ≡ low y) × (at_step result.codes step ≡ code) }
        ensures either { (step : ℕ) → step < 4
            → (at_step result.codes step ≡ at_step self.codes step) ⊎ (at_step result.codes step ≡ code) }
    {
        let a = pick(self.numbers[0], self.codes[0], others[0], code);
        let b = pick(self.numbers[1], self.codes[1], others[1], code);
        let c = pick(self.numbers[2], self.codes[2], others[2], code);
        let d = pick(self.numbers[3], self.codes[3], others[3], code);
        Four {
            numbers: [a.number, b.number, c.number, d.number],
            codes: [a.code, b.code, c.code, d.code],
        }
    }
}

/// The sums of two numbers.
#[inline(always)]
pub(crate) fn plus(a: [u32; 4], b: [u32; 4]) -> [u32; 4]
    ensures { (step : ℕ) (x y : ℤ) → step < 4 → at_step a step ≡ low x → at_step b step ≡ low y
        → at_step result step ≡ low (x +ℤ y) }
{
    [
        a[0].wrapping_add(b[0]),
        a[1].wrapping_add(b[1]),
        a[2].wrapping_add(b[2]),
        a[3].wrapping_add(b[3]),
    ]
}

/// The differences of two numbers.
#[inline(always)]
pub(crate) fn minus(a: [u32; 4], b: [u32; 4]) -> [u32; 4]
    ensures { (step : ℕ) (x y : ℤ) → step < 4 → at_step a step ≡ low x → at_step b step ≡ low y
        → at_step result step ≡ low (x -ℤ y) }
{
    [
        a[0].wrapping_sub(b[0]),
        a[1].wrapping_sub(b[1]),
        a[2].wrapping_sub(b[2]),
        a[3].wrapping_sub(b[3]),
    ]
}

/// Numbers, so many times.
#[inline(always)]
pub(crate) fn times(a: [u32; 4], by: u32) -> [u32; 4]
    requires { by < 2 ^ 31 }
    ensures { (step n : ℕ) → step < 4 → at_step a step ≡ low (pos n) → at_step result step ≡ low (pos (by * n)) }
{
    [
        a[0].wrapping_mul(by),
        a[1].wrapping_mul(by),
        a[2].wrapping_mul(by),
        a[3].wrapping_mul(by),
    ]
}
