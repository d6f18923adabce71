//! The best paths that end with the latest four steps. Read next: `best`.
ghost use Rattle.std.specs.Prelude.{◌≡◌, ◌≢◌, ℕ, ◌<◌, ◌≤◌, List, drop, length};
ghost use Rattle.cell_path.specs.declared.cell.Sign.{Sign};
ghost use Rattle.cell_path.specs.declared.cell.Step.{Step};
ghost use Rattle.cell_path.specs.Scores.{AreSteps};
ghost use Rattle.cell_path.specs.StandsFor.{end_at, AreBits, AreEnds, RowsStandFor, SumsStandFor};

use crate::cell::Sign;
use crate::end::best_end;
use crate::four::Four;
use crate::lengths::PLACES;
use crate::rows::Rows;
use crate::sums::Sums;

/// The best paths that end with each of four steps, in each length and sign: what is kept of their scores,
/// and the codes of their latest bits.
#[derive(Clone, Copy)]
pub struct Ends {
    pub plus: [Four; PLACES],
    pub minus: [Four; PLACES],
}

impl Ends {
    /// The ends of the length in this place, with this sign.
    #[inline(always)]
    pub(crate) fn at(&self, place: usize, sign: Sign) -> Four
        requires { place < 45 }
        ensures { result ≡ end_at self.now place sign }
    {
        match sign {
            Sign::Plus => self.plus[place],
            Sign::Minus => self.minus[place],
        }
    }

    /// Puts in the two of a length.
    #[inline(always)]
    fn put(&mut self, place: usize, plus: Four, minus: Four)
        requires { place < 45 }
        ensures plus { end_at self.new place Sign.Plus ≡ plus }
        ensures minus { end_at self.new place Sign.Minus ≡ minus }
        ensures others { (other : ℕ) (sign : Sign) → other ≢ place
            → end_at self.new other sign ≡ end_at self.old other sign }
    {
        self.plus[place] = plus;
        self.minus[place] = minus;
    }
}

/// Room for them.
#[inline(always)]
pub(crate) fn no_ends() -> Ends {
    let none = Four::first([0; 4]);
    Ends {
        plus: [none; PLACES],
        minus: [none; PLACES],
    }
}

/// Puts in the best paths that end with each of the latest four steps. The sums have those steps already, and the
/// rows do not.
// In place, since to answer with so many numbers is to copy them twice.
pub(crate) fn best_ends(ends: &mut Ends, sums: &Sums, rows: &Rows)
    ensures ends { (step : ℕ) (steps : List Step) → step < 4 → 4 ≤ length steps → AreSteps steps
        → SumsStandFor sums.now steps → RowsStandFor rows.now (drop 4 steps) → AreEnds 45 ends.new steps step }
    ensures codes { AreBits ends.new }
{
    for place in 0..PLACES {
        let plus = best_end(sums, rows, place, Sign::Plus);
        let minus = best_end(sums, rows, place, Sign::Minus);
        ends.put(place, plus, minus);
    }
}
