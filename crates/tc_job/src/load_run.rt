//! What the words of `ltc-load` say: a seed, and how many words to make and to read.
ghost use Rattle.std.specs.Prelude.{◌≡◌};
ghost use Rattle.tc_job.specs.LoadRun.{IsLoading, loading_of};

use std::marker::Model;

/// The greatest number of words that one run makes and reads.
pub const MAX_WORDS: u32 = 100_000;

/// A load run: the seed of its generator, and how many words it makes and reads.
#[derive(Clone, Copy)]
pub struct LoadRun {
    seed: u64,
    words: u32,
}

impl Model for LoadRun {
    ghost use Rattle.tc_job.specs.LoadRun.{IsLoading, Loading, loading_of};

    ghost Value = { Loading };

    ghost view = { λ l. record { seed = l.seed; words = l.words } };

    ghost invariant = { λ l. IsLoading (loading_of l.seed l.words) };

    ghost inverse = { λ l. record { seed = l.seed; words = l.words } };
}

impl LoadRun {
    /// So many words from this seed.
    pub fn new(seed: u64, words: u32) -> LoadRun
        requires { IsLoading (loading_of seed words) }
        ensures { result ≡ loading_of seed words }
    {
        LoadRun { seed, words }
    }

    /// The seed of the generator.
    pub fn seed(&self) -> u64
        ensures value { result ≡ self.now.seed }
        ensures valid { IsLoading self.now }
    {
        self.seed
    }

    /// How many words, from 1 to `MAX_WORDS`.
    pub fn words(&self) -> u32
        ensures value { result ≡ self.now.words }
        ensures valid { IsLoading self.now }
    {
        self.words
    }
}
