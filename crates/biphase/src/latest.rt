//! What a tolerance keeps of the cells so far. Read next: `profile`.
ghost use Rattle.std.specs.Prelude.{◌≡◌, ℕ, ◌*◌, ◌≤◌};
ghost use Rattle.limits.specs.declared.recording.TheConstants.{MAX_INTERVAL};
ghost use Rattle.biphase.specs.Tolerance.{latest_with, sum_of, kept_at_lock, kept_next, reference_of, kept_by};

use crate::profile::Profile;
use std::marker::Model;

/// The lengths of the latest four cells of a stretch, in ticks, the last one first. They are kept in one
/// place, beside the state of a stretch, and only a tolerance that compares with their sum writes them.
// A state goes by value through each answer: with the four lengths in the states each interval cost 28 instructions
// more, of 70.
#[derive(Clone, Copy)]
pub struct LatestFour {
    last: u32,
    second: u32,
    third: u32,
    fourth: u32,
}

impl Model for LatestFour {
    ghost use Rattle.std.specs.Prelude.{◌*◌, ◌≤◌};
    ghost use Rattle.limits.specs.declared.recording.TheConstants.{MAX_INTERVAL};
    ghost use Rattle.biphase.specs.Latest.{Latest};

    ghost Value = { Latest };

    ghost view = { λ f. record { last = f.last; second = f.second; third = f.third; fourth = f.fourth } };

    ghost invariant = { λ f. (f.last ≤ 2 * MAX_INTERVAL) × (f.second ≤ 2 * MAX_INTERVAL)
        × (f.third ≤ 2 * MAX_INTERVAL) × (f.fourth ≤ 2 * MAX_INTERVAL) };

    ghost inverse = { λ v. record { last = v.last; second = v.second; third = v.third; fourth = v.fourth } };
}

impl LatestFour {
    /// No cell yet.
    pub fn new() -> LatestFour
        ensures { result ≡ latest_with 0 0 0 0 }
    {
        LatestFour {
            last: 0,
            second: 0,
            third: 0,
            fourth: 0,
        }
    }

    /// The first cell of a stretch, of `c` ticks, four times.
    fn begin(&mut self, c: u32)
        requires { c ≤ 2 * MAX_INTERVAL }
        ensures { self.new ≡ latest_with c c c c }
    {
        self.last = c;
        self.second = c;
        self.third = c;
        self.fourth = c;
    }

    /// One cell more, of `c` ticks: the oldest leaves.
    fn push(&mut self, c: u32)
        requires { c ≤ 2 * MAX_INTERVAL }
        ensures { self.new ≡ latest_with c self.old.last self.old.second self.old.third }
    {
        self.fourth = self.third;
        self.third = self.second;
        self.second = self.last;
        self.last = c;
    }

    /// The sum of the four, in ticks.
    fn sum(&self) -> u32
        ensures { result ≡ sum_of self.now }
    {
        self.last + self.second + self.third + self.fourth
    }
}

impl Profile {
    /// Keeps the first cell of a stretch, of `c` ticks, and gives the number to compare with.
    #[inline(always)]
    pub fn at_lock(self, four: &mut LatestFour, c: u32) -> u32
        requires { c ≤ 2 * MAX_INTERVAL }
        ensures reference { result ≡ reference_of self (kept_at_lock self c) }
        ensures kept { kept_by self result four.new ≡ kept_at_lock self c }
    {
        match self {
            Profile::Rough => {
                four.begin(c);
                four.sum()
            }
            Profile::Normal | Profile::Worn => c,
        }
    }

    /// Keeps one cell more, of `c` ticks, and gives the number to compare with.
    #[inline(always)]
    pub fn after(self, four: &mut LatestFour, c: u32) -> u32
        requires { c ≤ 2 * MAX_INTERVAL }
        ensures reference { (before : ℕ)
            → result ≡ reference_of self (kept_next self (kept_by self before four.old) c) }
        ensures kept { (before : ℕ) → kept_by self result four.new ≡ kept_next self (kept_by self before four.old) c }
    {
        match self {
            Profile::Rough => {
                four.push(c);
                four.sum()
            }
            Profile::Normal | Profile::Worn => c,
        }
    }
}
