//! The sizes of the latest sounds, and their mean. Read next: `hold`.
ghost use Rattle.std.specs.Prelude.{◌≡◌, ℕ, ◌+◌, ◌*◌, ◌/◌, ◌^◌, ◌<◌, ◌≤◌, min, List, [], ◌∷◌};
ghost use Rattle.path_front.specs.Sizes.{mean_size};
ghost use Rattle.path_front.specs.KeptSizes.{SizesStandFor};

use std::marker::Model;

/// Of how many sounds a mean size is: some twenty cells at play speed.
pub const MEANS: usize = 512;

/// The sizes of the latest 512 sounds, in a ring.
#[derive(Drop)]
pub(crate) struct Sizes {
    ring: [u32; MEANS],
    count: u64,
    total: u32,
}

impl Model for Sizes {
    ghost use Rattle.path_front.specs.KeptSizes.{AreSizes, SizesState};

    ghost Value = { SizesState };

    ghost view = { λ s. record { ring = s.ring; count = s.count; total = s.total } };

    ghost invariant = { λ s. AreSizes (record { ring = s.ring; count = s.count; total = s.total }) };
}

/// The mean of numbers with this sum. Mostly there are 512, which is no division, but a shift.
fn mean_of(sum: u32, many: u32) -> u32
    requires { 0 < many }
    ensures { result ≡ sum / many }
{
    if many == MEANS as u32 {
        sum / MEANS as u32
    } else {
        sum / many
    }
}

impl Sizes {
    /// Before the first sound.
    pub(crate) fn new() -> Sizes
        ensures stands { SizesStandFor result [] }
        ensures count { result.count ≡ 0 }
    {
        Sizes {
            ring: [0; MEANS],
            count: 0,
            total: 0,
        }
    }

    /// Takes the size of the next sound.
    pub(crate) fn push(&mut self, size: u32)
        requires size { size ≤ 2 ^ 15 }
        requires room { self.old.count < 2 ^ 40 }
        ensures stands { (sizes : List ℕ) → SizesStandFor self.old sizes → SizesStandFor self.new (size ∷ sizes) }
        ensures count { self.new.count ≡ self.old.count + 1 }
    {
        self.count += 1;
        let place = self.count as usize % MEANS;
        self.total = self.total + size - self.ring[place];
        self.ring[place] = size;
    }

    /// `times` times the mean size, if there was a sound.
    pub(crate) fn mean_times(&self, times: u32) -> u32
        requires some { 0 < self.now.count }
        requires times { times ≤ 3 }
        ensures value { (sizes : List ℕ) → SizesStandFor self.now sizes → result ≡ mean_size times sizes }
        ensures most { result ≤ times * 2 ^ 15 }
    {
        mean_of(times * self.total, self.many())
    }

    /// How many sounds the mean is of.
    fn many(&self) -> u32
        ensures value { result ≡ min self.now.count 512 }
        ensures most { self.now.total ≤ result * 2 ^ 15 }
    {
        self.count.min(MEANS as u64) as u32
    }
}
