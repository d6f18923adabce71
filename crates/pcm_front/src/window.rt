//! The sums of the latest samples. Read next: `still`.
ghost use Rattle.std.specs.Prelude.{◌≡◌, ◌≤◌, ◌+◌, ◌*◌, ◌==◌, true, false, cond, unsigned_abs, ◌+ℤ◌, ◌-ℤ◌, ◌++◌, []};
ghost use Rattle.std.specs.Prelude.{◌∷◌, length};
ghost use Rattle.pcm_front.specs.KeptRuns.{PassesTo};
ghost use Rattle.pcm_front.specs.Level.{IsInRange, IsSum};
ghost use Rattle.pcm_front.specs.State.{fresh_window, window_after, window_of, IsAlone, IsRing, IsThreshold};
ghost use Rattle.pcm_front.specs.Sums.{total};

use crate::samples::Samples;
use crate::side::Side;
use crate::still::{Passed, pass_ring};
use crate::threshold::Threshold;
use std::marker::Model;

/// The greatest number of samples in a sum.
pub const MAX_SMOOTH: u32 = 16;

/// The latest samples, but for one of those in a sum.
#[derive(Drop)]
pub(crate) struct Window {
    /// The latest samples, as a ring: one less than are in a sum.
    ring: [i16; 15],
    turn: Turn,
}

/// The place in a ring of samples. These numbers are not in one struct with the samples, so that they can
/// stay in registers from sample to sample.
#[derive(Clone, Copy)]
pub(crate) struct Turn {
    /// Of how many samples sums are made, from 1 to `MAX_SMOOTH`.
    pub(crate) smooth: u32,
    /// The place of the oldest sample in the ring.
    pub(crate) oldest: usize,
    /// The sum of all samples in it.
    pub(crate) sum: i32,
}

impl Model for Window {
    ghost use Rattle.pcm_front.specs.State.{WindowState, IsRing, window_of};

    ghost Value = { WindowState };

    ghost view = { λ w. window_of w.turn.smooth w.ring w.turn.oldest };

    ghost invariant = { λ w. IsRing w.turn.smooth w.ring w.turn.oldest w.turn.sum };
}

/// A sum to which a sample comes.
pub(crate) fn summed(sum: i32, comes: i16) -> i32
    requires { unsigned_abs sum ≤ 32_768 * 15 }
    ensures value { result ≡ sum +ℤ comes }
    ensures size { IsSum result }
{
    sum + i32::from(comes)
}

/// A sum to which a sample comes, and from which one goes.
fn moved(sum: i32, comes: i16, goes: i16) -> i32
    requires { unsigned_abs sum ≤ 32_768 * 15 }
    ensures { result ≡ (sum +ℤ comes) -ℤ goes }
{
    sum + i32::from(comes) - i32::from(goes)
}

/// The place after this one, in a ring of `smooth - 1` places.
fn place_after(smooth: u32, place: usize) -> usize
    requires { place + 2 ≤ smooth }
    ensures { result ≡ cond (place + 2 == smooth) 0 (place + 1) }
{
    if place + 2 == smooth as usize {
        0
    } else {
        place + 1
    }
}

impl Turn {
    /// Writes a sample over the oldest one of a ring.
    #[inline(always)]
    pub(crate) fn put(self, ring: &mut [i16; 15], sample: i16) -> Turn
        requires ring { IsRing self.smooth ring.old self.oldest self.sum }
        requires more { 2 ≤ self.smooth }
        ensures ring { IsRing result.smooth ring.new result.oldest result.sum }
        ensures window { window_of result.smooth ring.new result.oldest
            ≡ window_after (window_of self.smooth ring.old self.oldest) sample }
        ensures smooth { result.smooth ≡ self.smooth }
    {
        let sum = moved(self.sum, sample, ring[self.oldest]);
        ring[self.oldest] = sample;
        let oldest = place_after(self.smooth, self.oldest);
        Turn {
            smooth: self.smooth,
            oldest,
            sum,
        }
    }
}

impl Window {
    /// Before the first sample, when each is 0.
    pub(crate) fn new(smooth: u32) -> Window
        requires least { 1 ≤ smooth }
        requires most { smooth ≤ MAX_SMOOTH }
        ensures { result ≡ fresh_window smooth }
    {
        Window {
            ring: [0; 15],
            turn: Turn {
                smooth,
                oldest: 0,
                sum: 0,
            },
        }
    }

    /// Whether each sample stands for itself.
    pub(crate) fn is_alone(&self) -> bool
        ensures alone { result ≡ true → IsAlone self.now }
        ensures more { result ≡ false → 2 ≤ self.now.smooth }
    {
        self.turn.smooth == 1
    }

    /// The sum of the latest samples, this one among them.
    pub(crate) fn sum_with(&self, sample: i16) -> i32
        ensures value { result ≡ total (self.now.kept ++ sample ∷ []) }
        ensures size { IsSum result }
        ensures some { 1 ≤ self.now.smooth }
    {
        summed(self.turn.sum, sample)
    }

    /// Keeps a sample in place of the oldest one.
    pub(crate) fn push(&mut self, sample: i16)
        ensures { self.new ≡ window_after self.old sample }
    {
        if self.turn.smooth == 1 {
            return;
        }
        self.turn = self.turn.put(&mut self.ring, sample);
    }

    /// Passes over samples in whose sums the sound stays on its side.
    pub(crate) fn pass<S: Samples>(
        &mut self,
        samples: &S,
        from: Passed,
        side: Option<Side>,
        threshold: Threshold,
    ) -> Passed
        requires more { 2 ≤ self.old.smooth }
        requires place { from.end ≤ length (S.list samples.now) }
        requires before { IsSum from.before }
        requires level { IsInRange from.level }
        requires threshold { IsThreshold threshold }
        ensures order { from.end ≤ result.end }
        ensures within { result.end ≤ length (S.list samples.now) }
        ensures before { IsSum result.before }
        ensures level { IsInRange result.level }
        ensures passes { PassesTo side threshold (S.list samples.now) from result self.old self.new }
    {
        let (turn, passed) = pass_ring(self.turn, &mut self.ring, samples, from, side, threshold);
        self.turn = turn;
        passed
    }
}
