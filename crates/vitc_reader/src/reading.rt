//! From the runs of a line to its bits. Read next: `ones`, and with all bits of a line
//! `vitc_line/src/reading.rt`.

ghost use Rattle.std.specs.Prelude.{◌≡◌, ℕ, ◌^◌, ◌<◌, ◌≤◌, ◌+◌, ◌*◌, ◌/◌, IfOk, IfErr, IfSome, None};
ghost use Rattle.vitc_reader.specs.Runs.{IsLineLength, MayBeLine, IsCells, StandFor, IsRunFault, runs_of_bytes};
ghost use Rattle.vitc_reader.specs.KeptLine.{factor_on, IsTurnedBy, IsRefusedAt};

use crate::fault::RunFault;
use crate::ones::ones;
use byteorder::{BigEndian, ByteOrder};

/// The most cells of a line.
const CELLS: u32 = 90;

/// What a number is multiplied with in place of a division by four times the length of a line: the
/// quotient is the upper 64 bits of the product.
// With a quotient and two shifts of 128 bits a run, these took three quarters of the time of `vitc-read`.
pub(crate) fn factor_of(length: u32) -> u64
    requires { IsLineLength length }
    ensures value { result ≡ factor_on length }
    ensures small { result ≤ 2 ^ 54 }
{
    ((1 << 43) / (4 * length as u64) + 1) << 21
}

/// How many cells a run of `run` ticks is: it is within a quarter of a cell of them.
#[inline(always)]
fn cells_of(length: u32, factor: u64, run: u16) -> Option<u32>
    requires length { IsLineLength length }
    requires factor { factor ≡ factor_on length }
    requires small { factor ≤ 2 ^ 54 }
    ensures some { IfSome result (IsCells length run) }
    ensures none { result ≡ None → (k : ℕ) → ¬ IsCells length run k }
    ensures few { IfSome result (λ k. k < 2 ^ 25) }
{
    let quarters = 460 * run as u32 + length;
    let product = quarters as u128 * factor as u128;
    let cells = (product >> 64) as u32;
    // What the division leaves is in the lower half, times the factor: half of the divisor is near enough.
    let half = (2 * length as u64 + 1) * factor;
    if cells >= 1 && ((product % (1 << 64)) as u64) < half {
        Some(cells)
    } else {
        None
    }
}

/// The runs so far of a line: how many cells they are, and their bits, with the last run taken to be high. Each run
/// before it turns, so behind an odd number of runs the first one is high.
#[derive(Clone, Copy)]
struct Turned {
    cells: u32,
    bits: u128,
}

impl Turned {
    /// No run.
    fn none() -> Turned
        ensures { (result.cells ≡ 0) × (result.bits ≡ 0) }
    {
        Turned { cells: 0, bits: 0 }
    }

    /// With one run more, which has this place among the runs.
    #[inline(always)]
    fn with(self, length: u32, factor: u64, run: u16, place: usize) -> Result<Turned, RunFault>
        requires length { IsLineLength length }
        requires factor { factor ≡ factor_on length }
        requires small { factor ≤ 2 ^ 54 }
        requires cells { self.cells ≤ 90 }
        requires bits { self.bits < 2 ^ self.cells }
        ensures next { IfOk result (IsTurnedBy length self run) }
        ensures refuses { IfErr result (IsRefusedAt length self run place) }
    {
        let Some(more) = cells_of(length, factor, run) else {
            return Err(RunFault::Run(place));
        };
        let cells = self.cells + more;
        if cells > CELLS {
            return Err(RunFault::TooLong(place));
        }
        Ok(Turned {
            cells,
            bits: self.bits ^ ones(cells),
        })
    }
}

/// The bits that the runs of a line stand for. Each run is in ticks, as the length of the line is, from
/// 460 to 65,535. There is an odd number of runs, 89 at most: they are alternately high and low, and the
/// first and the last are high. Bits after the last run are 0.
pub fn read_runs(length: u32, runs: &[u16]) -> Result<u128, RunFault>
    requires length { IsLineLength length }
    requires runs { MayBeLine runs.now }
    ensures reads { IfOk result (λ bits. StandFor length runs.now bits) }
    ensures only { (bits : ℕ) → StandFor length runs.now bits → result ≡ Ok bits }
    ensures refuses { IfErr result (λ fault. IsRunFault length runs.now fault) }
    ensures width { IfOk result (λ bits. bits < 2 ^ 90) }
{
    let factor = factor_of(length);
    let mut line = Turned::none();
    'runs: for index in 0..runs.len() {
        line = line.with(length, factor, runs[index], index)?;
    }
    Ok(line.bits)
}

/// The same of runs as two bytes each, the most significant first. Alone it has the registers that its loop
/// needs.
#[inline(never)]
pub(crate) fn read_bytes(length: u32, factor: u64, bytes: &[u8]) -> Result<u128, RunFault>
    requires length { IsLineLength length }
    requires factor { factor ≡ factor_on length }
    requires small { factor ≤ 2 ^ 54 }
    requires runs { MayBeLine (runs_of_bytes bytes.now) }
    ensures reads { IfOk result (λ bits. StandFor length (runs_of_bytes bytes.now) bits) }
    ensures only { (bits : ℕ) → StandFor length (runs_of_bytes bytes.now) bits → result ≡ Ok bits }
    ensures refuses { IfErr result (λ fault. IsRunFault length (runs_of_bytes bytes.now) fault) }
    ensures width { IfOk result (λ bits. bits < 2 ^ 90) }
{
    let mut line = Turned::none();
    'runs: for index in 0..bytes.len() / 2 {
        let run = BigEndian::read_u16(&bytes[2 * index..]);
        line = line.with(length, factor, run, index)?;
    }
    Ok(line.bits)
}
