//! The numbers of the latest steps. Read next: `end`.
ghost use Rattle.std.specs.Prelude.{◌≡◌, ◌≢◌, ℕ, ◌+◌, ◌-◌, ◌%◌, ◌<◌, ◌≤◌, get_or, pos, neg_ℤ, []};
ghost use Rattle.cell_path.specs.declared.cell.Sign.{Sign};
ghost use Rattle.cell_path.specs.declared.lengths.TheConstants.{EARLY};
ghost use Rattle.cell_path.specs.Four.{at_step, low};
ghost use Rattle.cell_path.specs.Kept.{number_ago, number_next, IsRing};
ghost use Rattle.cell_path.specs.StandsFor.{RowsStandFor};
ghost use Rattle.cell_path.specs.Started.{KeepsNumbers};

use crate::cell::Sign;
use crate::lengths::{EARLY, PLACES};
use crate::ring::{read, write};
use std::marker::Model;

/// The numbers of the latest 128 steps, in a ring for each length and sign: the best scores of what comes
/// before a cell that begins there.
#[derive(Drop)]
pub(crate) struct Rows {
    plus: [[u32; 132]; PLACES],
    minus: [[u32; 132]; PLACES],
    next: usize,
}

impl Model for Rows {
    ghost use Rattle.cell_path.specs.Kept.{RowsState, AreRows};

    ghost Value = { RowsState };

    ghost view = { λ s. record { plus = s.plus; minus = s.minus; next = s.next } };

    ghost invariant = { λ s. AreRows (record { plus = s.plus; minus = s.minus; next = s.next }) };
}

/// The numbers before the first step: a cell that begins with the sound costs nothing, and one that begins before
/// it does costs much. Out of line, as `Rows::new`: inlined into its callers, these rings take the compiler minutes.
#[inline(never)]
fn no_numbers() -> [u32; 132]
    ensures ring { IsRing result }
    ensures here { get_or result 127 0 ≡ low (pos 0) }
    ensures early { (place : ℕ) → place < 127 → get_or result place 0 ≡ low (neg_ℤ EARLY) }
{
    let mut ring = [0u32.wrapping_sub(EARLY as u32); 132];
    ring[127] = 0;
    ring
}

impl Rows {
    /// Before the first step.
    #[inline(never)]
    pub(crate) fn new() -> Rows
        ensures next { result.next ≡ 0 }
        ensures stands { RowsStandFor result [] }
    {
        Rows {
            plus: [no_numbers(); PLACES],
            minus: [no_numbers(); PLACES],
            next: 0,
        }
    }

    /// The numbers behind which cells of a length begin that end with the next four steps.
    #[inline(always)]
    pub(crate) fn four(&self, length: usize, place: usize, sign: Sign) -> [u32; 4]
        requires least { 4 ≤ length }
        requires most { length ≤ 96 }
        requires place { place < 45 }
        ensures { (step : ℕ) → step < 4 → at_step result step ≡ number_ago self.now (length - 1 - step) place sign }
    {
        let at = (self.next + 128 - length) % 128;
        match sign {
            Sign::Plus => read(&self.plus[place], at),
            Sign::Minus => read(&self.minus[place], at),
        }
    }

    /// Puts in the numbers of a length for the next four steps.
    #[inline(always)]
    pub(crate) fn put(&mut self, place: usize, plus: [u32; 4], minus: [u32; 4])
        requires { place < 45 }
        ensures keeps { KeepsNumbers self.old self.new }
        ensures plus { (step : ℕ) → step < 4 → number_next self.new step place Sign.Plus ≡ at_step plus step }
        ensures minus { (step : ℕ) → step < 4 → number_next self.new step place Sign.Minus ≡ at_step minus step }
        ensures others { (step other : ℕ) (sign : Sign) → other ≢ place
            → number_next self.new step other sign ≡ number_next self.old step other sign }
    {
        let at = self.next;
        write(&mut self.plus[place], at, plus);
        write(&mut self.minus[place], at, minus);
    }

    /// Goes on behind the four steps whose numbers have been put in.
    pub(crate) fn turn(&mut self)
        ensures next { self.new.next ≡ (self.old.next + 4) % 128 }
        ensures latest { (step place : ℕ) (sign : Sign) → step < 4
            → number_ago self.new (3 - step) place sign ≡ number_next self.old step place sign }
        ensures others { (ago place : ℕ) (sign : Sign) → ago ≤ 96
            → number_ago self.new (ago + 4) place sign ≡ number_ago self.old ago place sign }
    {
        self.next = (self.next + 4) % 128;
    }
}
