//! The crossings in a list of sums. Read next: `side`.
ghost use Rattle.std.specs.Prelude.{◌≡◌, ◌+◌, ◌-◌, ◌*◌, ◌<◌, ◌≤◌, ◌^◌, true, false, Some, None, length, slice_range};
ghost use Rattle.std.specs.Prelude.{IfSome};
ghost use Rattle.std.specs.List.{fold};
ghost use Rattle.pcm_front.specs.KeptRuns.{latest, RunsTo};
ghost use Rattle.pcm_front.specs.Level.{IsSum};
ghost use Rattle.pcm_front.specs.Pace.{Passes};
ghost use Rattle.pcm_front.specs.Side.{differs, side_of};
ghost use Rattle.pcm_front.specs.StandsFor.{passed_in};
ghost use Rattle.pcm_front.specs.State.{after_sum, between, crossing_after, distance_at, fresh, late_start, level_in};
ghost use Rattle.pcm_front.specs.State.{state_after, IsAlone};
ghost use Rattle.pcm_front.specs.State.{IsThreshold, WindowState};

use crate::crossing::tick_to;
use crate::level::Level;
use crate::quiet::{Band, end_of_run};
use crate::samples::Samples;
use crate::side::{Side, crossed, side_of};
use crate::start::Start;
use crate::still::Passed;
use crate::threshold::Threshold;
use crate::window::Window;
use std::marker::Model;

/// Finds the crossings in a list of sums, one sum at a time.
#[derive(Drop)]
pub(crate) struct Finder {
    fineness: u32,
    threshold: Threshold,
    start: Start,
    /// The ticks of all sums so far.
    tick: u64,
    before: i32,
    level: Level,
    side: Option<Side>,
    /// The moment of the last crossing and a sample more, so that no place is ever below zero.
    latest: Option<u64>,
}

impl Model for Finder {
    ghost use Rattle.pcm_front.specs.State.{FinderState, IsKept, state_of};

    ghost Value = { FinderState };

    ghost view = { λ s. state_of s.fineness s.threshold s.start s.tick s.before s.level s.side s.latest };

    ghost invariant = { λ s. IsKept (state_of s.fineness s.threshold s.start s.tick s.before s.level s.side s.latest) };
}

/// From a moment to a later one, if both are there.
fn between(before: Option<u64>, now: Option<u64>) -> Option<u64>
    requires { IfSome before (λ before. IfSome now (λ now. before < now)) }
    ensures value { result ≡ between before now }
    ensures range { IfSome result (λ distance. (1 ≤ distance) × IfSome now (λ now. distance ≤ now)) }
{
    Some(now? - before?)
}

/// Where the first distance begins, a sample late.
fn late_start(start: Start, fineness: u32) -> Option<u64>
    ensures { result ≡ late_start start fineness }
{
    match start {
        Start::Crossing => None,
        Start::Tick => Some(u64::from(fineness)),
    }
}

/// The last of the samples in some places, or else what came before them.
fn last_in<S: Samples>(before: i32, samples: &S, at: usize, end: usize) -> i32
    requires before { IsSum before }
    requires within { end ≤ length (S.list samples.now) }
    ensures value { result ≡ fold latest before (slice_range (S.list samples.now) at end) }
    ensures size { IsSum result }
{
    if at < end {
        i32::from(samples.at(end - 1))
    } else {
        before
    }
}

impl Finder {
    /// Before the first sum.
    pub(crate) fn new(fineness: u32, threshold: Threshold, start: Start) -> Finder
        requires least { 1 ≤ fineness }
        requires most { fineness ≤ 64 }
        requires threshold { IsThreshold threshold }
        ensures { result ≡ fresh fineness threshold start }
    {
        Finder {
            fineness,
            threshold,
            start,
            tick: 0,
            before: 0,
            level: Level::silent(),
            side: None,
            latest: late_start(start, fineness),
        }
    }

    /// Takes one more sum into the level, if the threshold follows it.
    #[inline(always)]
    fn hear(&mut self, sum: i32)
        requires sum { IsSum sum }
        ensures { self.new ≡ record self.old { level = level_in self.old sum } }
    {
        match self.threshold {
            Threshold::Fixed(_) => (),
            Threshold::Follow(_) | Threshold::Deep(_) => self.level = self.level.after(sum),
        }
    }

    /// Takes the sum, at a threshold, at which the sound goes over to a side, and gives the distance.
    #[inline(always)]
    fn cross(&mut self, side: Side, threshold: u32, sum: i32) -> Option<u64>
        requires threshold { threshold ≤ 524_272 }
        requires side { side_of threshold sum ≡ Some side }
        requires differs { differs self.old.side (Some side) ≡ true }
        requires sum { IsSum sum }
        requires room { self.old.tick + self.old.fineness ≤ 2 ^ 62 }
        ensures state { self.new ≡ after_sum self.old self.old.level threshold sum }
        ensures distance { result ≡ between self.old.latest (crossing_after self.old threshold sum) }
        ensures range { IfSome result (λ distance. (1 ≤ distance) × (distance ≤ 2 ^ 62)) }
        ensures passes { Passes (passed_in self.old) result (passed_in self.new) }
    {
        let tick = tick_to(side, self.fineness, threshold, self.before, sum);
        let moment = self.tick + u64::from(tick);
        let distance = between(self.latest, Some(moment));
        self.tick += u64::from(self.fineness);
        self.before = sum;
        self.side = Some(side);
        self.latest = Some(moment);
        distance
    }

    /// Takes a sum, at a threshold, at which the sound does not go over to the other side.
    fn stay(&mut self, threshold: u32, sum: i32)
        requires threshold { threshold ≤ 524_272 }
        requires stays { differs self.old.side (side_of threshold sum) ≡ false }
        requires sum { IsSum sum }
        requires room { self.old.tick + self.old.fineness ≤ 2 ^ 62 }
        ensures state { self.new ≡ after_sum self.old self.old.level threshold sum }
    {
        self.tick += u64::from(self.fineness);
        self.before = sum;
        self.side = side_of(threshold, sum).or(self.side);
    }

    /// The ticks that have passed, at the latest sum, since the moment from which the next distance runs.
    pub(crate) fn passed(&self) -> u64
        ensures { result ≡ passed_in self.now }
    {
        match self.latest {
            Some(moment) => self.tick.saturating_sub(moment),
            None => 0,
        }
    }

    /// Takes the next sum, and says all that changes.
    #[inline(always)]
    pub(crate) fn step(&mut self, sum: i32) -> Option<u64>
        requires sum { IsSum sum }
        requires room { self.old.tick + self.old.fineness ≤ 2 ^ 62 }
        ensures state { self.new ≡ state_after self.old sum }
        ensures distance { result ≡ distance_at self.old sum }
        ensures range { IfSome result (λ distance. (1 ≤ distance) × (distance ≤ 2 ^ 62)) }
        ensures passes { Passes (passed_in self.old) result (passed_in self.new) }
    {
        self.hear(sum);
        let threshold = self.threshold.at(self.level);
        match crossed(self.side, threshold, sum) {
            Some(side) => self.cross(side, threshold, sum),
            None => {
                self.stay(threshold, sum);
                None
            }
        }
    }

    /// Takes samples, each of which stands for itself, from a place on and as long as none of them can
    /// lead to another side, whatever the level. Gives the place behind them.
    pub(crate) fn pass_alone<S: Samples>(&mut self, samples: &S, at: usize) -> usize
        requires place { at ≤ length (S.list samples.now) }
        requires room { self.old.tick + self.old.fineness * (length (S.list samples.now) - at) ≤ 2 ^ 62 }
        ensures order { at ≤ result }
        ensures within { result ≤ length (S.list samples.now) }
        ensures latest { self.new.latest ≡ self.old.latest }
        ensures runs { (window : WindowState) → IsAlone window
            → RunsTo self.old self.new window window (slice_range (S.list samples.now) at result) None }
    {
        let band = Band::of(self.side, self.threshold.least());
        let end = end_of_run(samples, at, band);
        self.before = last_in(self.before, samples, at, end);
        self.level = self.threshold.level_over(self.level, samples, at, end);
        self.tick += u64::from(self.fineness) * (end - at) as u64;
        end
    }

    /// The same with sums of samples, which the window makes.
    #[inline(never)]
    pub(crate) fn pass_sums<S: Samples>(
        &mut self,
        window: &mut Window,
        samples: &S,
        at: usize,
    ) -> usize
        requires more { 2 ≤ window.old.smooth }
        requires place { at ≤ length (S.list samples.now) }
        requires room { self.old.tick + self.old.fineness * (length (S.list samples.now) - at) ≤ 2 ^ 62 }
        ensures order { at ≤ result }
        ensures within { result ≤ length (S.list samples.now) }
        ensures latest { self.new.latest ≡ self.old.latest }
        ensures runs { RunsTo self.old self.new window.old window.new
            (slice_range (S.list samples.now) at result) None }
    {
        let from = Passed {
            end: at,
            before: self.before,
            level: self.level,
        };
        let passed = window.pass(samples, from, self.side, self.threshold);
        self.before = passed.before;
        self.level = passed.level;
        self.tick += u64::from(self.fineness) * (passed.end - at) as u64;
        passed.end
    }
}
