//! Intervals to the samples of a sound.
ghost use Rattle.std.specs.Prelude.{◌≡◌, ◌+◌, ◌-◌, ◌≤◌, ◌<◌, ◌++◌, ℕ, ℤ};
ghost use Rattle.std.specs.Prelude.{List, [], ◌∷◌, length, take, drop, replicate, not};
ghost use Rattle.code_maker.specs.Sound.{level_on, MadeSound, StandsFor};

use std::marker::Model;

/// The samples of a sound that is made are so far from zero at most.
pub const MAX_LEVEL: u16 = 32_767;

/// Makes the sound of intervals, as many samples of one level as an interval has ticks, the first above zero.
#[derive(Drop)]
pub struct SoundMaker {
    level: u16,
    /// Whether the current interval lies above zero.
    up: bool,
    /// How many of its samples are still to be written.
    rest: u32,
}

impl Model for SoundMaker {
    ghost use Rattle.std.specs.Prelude.{◌≤◌};
    ghost use Rattle.code_maker.specs.Sound.{MadeSound};

    ghost Value = { MadeSound };

    ghost view = { λ s. record { level = s.level; up = s.up; rest = s.rest } };

    ghost invariant = { λ s. s.level ≤ 32767 };
}

impl SoundMaker {
    /// One of this level, before its first interval.
    pub fn new(level: u16) -> SoundMaker
        requires { level ≤ 32767 }
        ensures level { result.level ≡ level }
        ensures stands { StandsFor result [] [] }
    {
        SoundMaker {
            level,
            up: false,
            rest: 0,
        }
    }

    /// Takes intervals from the front, and writes their samples, as long as there is room. Gives how many
    /// intervals were taken, and how many samples were written. The last interval that was taken may have
    /// samples that are still to be written: those come with the next call.
    pub fn write(&mut self, ticks: &[u32], samples: &mut [i16]) -> (usize, usize)
        ensures used { result.0 ≤ length ticks.now }
        ensures made { result.1 ≤ length samples.old }
        ensures level { self.new.level ≡ self.old.level }
        ensures goes { (front : List ℕ) (given : List ℤ) → StandsFor self.old front given
            → StandsFor self.new (front ++ take result.0 ticks.now) (given ++ take result.1 samples.new) }
        ensures rest { drop result.1 samples.new ≡ drop result.1 samples.old }
        ensures all { result.1 < length samples.old → (result.0 ≡ length ticks.now) × (self.new.rest ≡ 0) }
        ensures few { length samples.old ≡ 0 → (result.0 ≡ 0) × (result.1 ≡ 0) × (self.new ≡ self.old) }
    {
        let mut at = 0;
        let mut made = self.go_on(samples, 0);
        'writing: while at < ticks.len() && made < samples.len() {
            self.begin(ticks[at]);
            at += 1;
            made = self.go_on(samples, made);
        }
        (at, made)
    }

    /// Begins an interval, of `x` ticks, where the one before is written.
    fn begin(&mut self, x: u32)
        requires { self.old.rest ≡ 0 }
        ensures { self.new ≡ record { level = self.old.level; up = not self.old.up; rest = x } }
    {
        self.up = !self.up;
        self.rest = x;
    }

    /// Writes samples of the current interval, as long as there is room, behind those that are made. Gives how
    /// many are made then.
    fn go_on(&mut self, samples: &mut [i16], made: usize) -> usize
        requires { made ≤ length samples.old }
        ensures least { made ≤ result }
        ensures most { result ≤ length samples.old }
        ensures new { self.new ≡ record self.old { rest = self.new.rest } }
        ensures left { result + self.new.rest ≡ made + self.old.rest }
        ensures writes { take result samples.new
            ≡ take made samples.old ++ replicate (result - made) (level_on self.old.up self.old.level) }
        ensures rest { drop result samples.new ≡ drop result samples.old }
        ensures done { result < length samples.old → self.new.rest ≡ 0 }
    {
        let room = samples.len() - made;
        let wanted = self.rest as usize;
        let count = if wanted <= room { wanted } else { room };
        self.rest -= count as u32;
        put_run(self.sample(), count, samples, made)
    }

    /// A sample of the current interval.
    fn sample(&self) -> i16
        ensures { result ≡ level_on self.now.up self.now.level }
    {
        let level = self.level as i16;
        if self.up { level } else { -level }
    }
}

/// Writes so many equal samples behind those that are made, and gives how many are made then.
fn put_run(sample: i16, count: usize, samples: &mut [i16], made: usize) -> usize
    requires { made + count ≤ length samples.old }
    ensures count { result ≡ made + count }
    ensures writes { take result samples.new ≡ take made samples.old ++ replicate count sample }
    ensures rest { drop result samples.new ≡ drop result samples.old }
{
    let mut at = made;
    'run: while at < made + count {
        at = put(sample, samples, at);
    }
    at
}

/// Writes a sample behind those that are made, and gives how many are made then.
fn put(sample: i16, samples: &mut [i16], made: usize) -> usize
    requires { made < length samples.old }
    ensures count { result ≡ made + 1 }
    ensures writes { take result samples.new ≡ take made samples.old ++ sample ∷ [] }
    ensures rest { drop result samples.new ≡ drop result samples.old }
{
    samples[made] = sample;
    made + 1
}
