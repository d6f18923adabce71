//! The cells of the load run: their length changes by chance. Read next: `divisors`.
ghost use Rattle.std.specs.Prelude.{◌≡◌, ◌≤◌, ◌<◌};
ghost use Rattle.biphase.specs.Chain.{intervals_of};
ghost use Rattle.generator.specs.Draw.{drawn};
ghost use Rattle.interval_file.specs.Grammar.{AreIntervals};
ghost use Rattle.made_commands.specs.KeptDivisors.{AreFactors};
ghost use Rattle.made_commands.specs.Load.{IsChance, begins_with, cell_of, first_half, one_cell, one_draw};

use crate::divisors::Divisors;
use biphase::Cell;
use generator::Generator;

/// The length before the first cell, in ticks.
pub(crate) const FIRST_LENGTH: u32 = 512;

/// The least length of a cell, in ticks.
pub(crate) const LEAST_LENGTH: u32 = 64;

/// The greatest length of a cell, in ticks.
pub(crate) const GREATEST_LENGTH: u32 = 4_096;

/// How far the generator is: its state, and the length of the latest cell.
#[derive(Clone, Copy)]
pub(crate) struct Chance {
    state: Generator,
    length: u32,
}

impl Chance {
    /// The generator of a seed.
    pub(crate) fn new(seed: u64) -> Chance
        ensures value { result ≡ begins_with seed }
    {
        Chance {
            state: Generator::new(seed),
            length: FIRST_LENGTH,
        }
    }

    /// One draw. Its value is the new state.
    pub(crate) fn draw(&mut self) -> u64
        ensures value { result ≡ drawn self.old.state }
        ensures next { self.new ≡ one_draw self.old }
    {
        self.state.draw()
    }

    /// The next cell, with this bit.
    pub(crate) fn next_cell(&mut self, divisors: &Divisors, bit: bool) -> Cell
        requires chance { IsChance self.old }
        requires factors { AreFactors divisors.now.factors }
        ensures cell { result ≡ cell_of bit (one_cell self.old) }
        ensures next { self.new ≡ one_cell self.old }
        ensures stays { IsChance self.new }
        ensures range { AreIntervals (intervals_of result) }
    {
        let value = self.draw();
        let eighth = self.length / 8;
        let moved = self.length + divisors.remainder(value >> 40, eighth) - eighth;
        self.length = LEAST_LENGTH.max(GREATEST_LENGTH.min(moved));
        if !bit {
            return Cell::Zero(self.length);
        }
        let first = first_half(divisors, value, self.length);
        Cell::One(first, self.length - first)
    }
}

/// The first half of a one of this length.
fn first_half(divisors: &Divisors, value: u64, length: u32) -> u32
    requires factors { AreFactors divisors.now.factors }
    requires least { LEAST_LENGTH ≤ length }
    requires most { length ≤ GREATEST_LENGTH }
    ensures exact { result ≡ first_half value length }
    ensures some { 1 ≤ result }
    ensures below { result < length }
{
    let most = (length - 16) / 32;
    length / 2 + divisors.remainder(value >> 20, most) - most
}
