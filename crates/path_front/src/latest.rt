//! The sound of the latest steps. Read next: `measured`.
ghost use Rattle.std.specs.Prelude.{◌≡◌, ◌+◌, ◌^◌, ◌<◌, ◌≤◌, ℤ, unsigned_abs, List, [], ◌∷◌};
ghost use Rattle.path_front.specs.Latest.{sound_ago, AreSums, LatestStandFor};

use std::marker::Model;

/// How many steps of the sound are kept: what is decided began at most some 2,200 steps ago.
pub const KEPT: usize = 4_096;

/// What the steps of a part have together.
#[derive(Clone, Copy)]
pub(crate) struct PartSums {
    pub(crate) sum: i64,
    /// The sum of the squares.
    pub(crate) squares: u64,
}

/// The sound of the latest steps, in a ring.
#[derive(Drop)]
pub(crate) struct Latest {
    ring: [i32; KEPT],
    count: u64,
}

impl Model for Latest {
    ghost use Rattle.path_front.specs.Latest.{AreLatest, LatestState};

    ghost Value = { LatestState };

    ghost view = { λ s. record { ring = s.ring; count = s.count } };

    ghost invariant = { λ s. AreLatest (record { ring = s.ring; count = s.count }) };
}

impl Latest {
    /// Before the first step.
    pub(crate) fn new() -> Latest
        ensures stands { LatestStandFor result [] }
        ensures count { result.count ≡ 0 }
    {
        Latest {
            ring: [0; KEPT],
            count: 0,
        }
    }

    /// Takes the next step.
    pub(crate) fn push(&mut self, sound: i32)
        requires sound { unsigned_abs sound ≤ 2 ^ 15 }
        requires room { self.old.count < 2 ^ 40 }
        ensures stands { (sounds : List ℤ) → LatestStandFor self.old sounds
            → LatestStandFor self.new (sound ∷ sounds) }
        ensures count { self.new.count ≡ self.old.count + 1 }
    {
        self.count += 1;
        self.ring[self.count as usize % KEPT] = sound;
    }

    /// How many steps have come.
    pub(crate) fn count(&self) -> u64
        ensures { result ≡ self.now.count }
    {
        self.count
    }

    /// The sound of the step `ago` steps before the latest.
    fn ago(&self, ago: usize) -> i64
        requires { ago < 4_096 }
        ensures value { result ≡ sound_ago self.now ago }
        ensures size { unsigned_abs result ≤ 2 ^ 15 }
    {
        i64::from(self.ring[(self.count as usize + KEPT - ago) % KEPT])
    }

    /// The sums of `many` steps up to the one `ago` steps before the latest.
    pub(crate) fn sums(&self, ago: usize, many: usize) -> PartSums
        requires many { many ≤ 96 }
        requires within { ago + many ≤ 4_096 }
        ensures { AreSums self.now ago many result }
    {
        let mut sum = 0;
        let mut squares = 0;
        for place in 0..many {
            let sound = self.ago(ago + place);
            let size = sound.unsigned_abs();
            sum += sound;
            squares += size * size;
        }
        PartSums { sum, squares }
    }
}
