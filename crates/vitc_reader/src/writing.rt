//! From the bits of a line to its runs.

ghost use Rattle.std.specs.Prelude.{◌≡◌, ◌↔◌, ◌^◌, ◌<◌, ◌≤◌, ◌%◌, ◌/◌, ◌*◌, ◌+◌, ◌-◌, take, drop, Bool, true, false};
ghost use Rattle.vitc_reader.specs.Runs.{IsLineLength, MayBeLine, StandFor, AreRunsOf, bits_of_run};
ghost use Rattle.vitc_reader.specs.Written.{run_length, runs_in};

/// How many of the lowest bits have this level, if the lowest one has it.
fn run_of(is_high: bool, rest: u128) -> u32
    requires width { rest < 2 ^ 90 }
    requires some { 1 ≤ rest }
    requires level { (rest % 2 ≡ 1) ↔ (is_high ≡ true) }
    ensures exact { result ≡ run_length is_high rest }
    ensures least { 1 ≤ result }
    ensures within { result ≤ 90 }
    ensures run { rest % 2 ^ result ≡ bits_of_run is_high result }
    ensures some { 2 ^ (result - 1) ≤ rest }
    ensures change { (rest / 2 ^ result % 2 ≡ 1) ↔ (is_high ≡ false) }
{
    if is_high {
        rest.trailing_ones()
    } else {
        rest.trailing_zeros()
    }
}

/// The tick at which this cell of a line of `length` ticks begins.
fn begin_of(length: u32, cell: u32) -> u32
    requires length { IsLineLength length }
    requires cell { cell ≤ 90 }
    ensures value { result ≡ cell * length / 115 }
{
    cell * length / 115
}

/// Writes the runs of a line with these bits, in ticks, to the front of `runs`, and gives their number,
/// which is odd. The line lasts `length` ticks, from 460 to 65,535, and bit 0 is 1. The runs go up to the
/// last high one. Cell i begins at tick i times the length by 115, rounded down.
pub fn runs_of(length: u32, bits: u128, runs: &mut [u16; 90]) -> usize
    requires length { IsLineLength length }
    requires width { bits < 2 ^ 90 }
    requires high { bits % 2 ≡ 1 }
    ensures number { result ≤ 89 }
    ensures written { AreRunsOf length bits (take result runs.new) }
    ensures exact { take result runs.new ≡ runs_in length bits }
    ensures rest { drop result runs.new ≡ drop result runs.old }

    // What is written is read back.
    ensures back { MayBeLine (take result runs.new) }
    ensures same { StandFor length (take result runs.new) bits }
{
    let mut rest = bits;
    let mut cell = 0;
    let mut number = 0;
    let mut is_high = true;
    while rest != 0 {
        let cells = run_of(is_high, rest);
        runs[number] = (begin_of(length, cell + cells) - begin_of(length, cell)) as u16;
        number += 1;
        cell += cells;
        rest >>= cells;
        is_high = !is_high;
    }
    number
}
