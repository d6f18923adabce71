//! A ring of numbers, from which four in a row are read. Read next: `four`.
ghost use Rattle.std.specs.Prelude.{◌≡◌, ◌⊎◌, ℕ, ◌+◌, ◌%◌, ◌<◌, ◌≤◌, get_or};
ghost use Rattle.cell_path.specs.Four.{at_step};
ghost use Rattle.cell_path.specs.Kept.{IsRing};

/// The four numbers from a place on.
#[inline(always)]
pub(crate) fn read(ring: &[u32; 132], at: usize) -> [u32; 4]
    requires ring { IsRing ring.now }
    requires at { at < 128 }
    ensures { (step : ℕ) → step < 4 → at_step result step ≡ get_or ring.now ((at + step) % 128) 0 }
{
    [ring[at], ring[at + 1], ring[at + 2], ring[at + 3]]
}

/// Puts four numbers in, from a place on.
#[inline(always)]
pub(crate) fn write(ring: &mut [u32; 132], at: usize, numbers: [u32; 4])
    requires ring { IsRing ring.old }
    requires at { at < 128 }
    requires fours { at % 4 ≡ 0 }
    ensures ring { IsRing ring.new }
    ensures numbers { (step : ℕ) → step < 4 → get_or ring.new (at + step) 0 ≡ at_step numbers step }
    ensures others { (place : ℕ) → place < 128 → (place < at) ⊎ (at + 4 ≤ place)
        → get_or ring.new place 0 ≡ get_or ring.old place 0 }
{
    ring[at] = numbers[0];
    ring[at + 1] = numbers[1];
    ring[at + 2] = numbers[2];
    ring[at + 3] = numbers[3];
    if at == 0 {
        ring[128] = numbers[0];
        ring[129] = numbers[1];
        ring[130] = numbers[2];
        ring[131] = numbers[3];
    }
}
