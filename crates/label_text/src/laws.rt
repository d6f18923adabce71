//! What follows from the definitions alone: that bytes are read in their order, and the limits.
ghost use Rattle.std.specs.Prelude.{◌≡◌, ℕ, List, ◌++◌};
ghost use Rattle.tc_io.specs.Verdict.{good, past_limit, refused};
ghost use Rattle.label_lines.specs.declared.timebase.Timebase.{Timebase};
ghost use Rattle.label_text.specs.declared.fault.LineFault.{LineFault};
ghost use Rattle.label_text.specs.declared.reader.TheConstants.{MAX_LINE, MAX_LINES};
ghost use Rattle.label_text.specs.LabelText.{reading_from, reading_of, with_labels};

/// Bytes are read in their order: if some are good, the labels of more follow theirs; a fault and the limit stay,
/// and nothing is read behind them.
pub fn bytes_are_read_in_order()
    ensures good { (base : Timebase) (front more : List ℕ) → (reading_of base front).verdict ≡ good
        → reading_of base (front ++ more)
        ≡ with_labels (reading_of base front).labels (reading_from (reading_of base front).place more) }
    ensures refused { (base : Timebase) (front more : List ℕ) (fault : LineFault)
        → (reading_of base front).verdict ≡ refused fault → reading_of base (front ++ more) ≡ reading_of base front }
    ensures past_limit { (base : Timebase) (front more : List ℕ)
        → (reading_of base front).verdict ≡ past_limit → reading_of base (front ++ more) ≡ reading_of base front }
{}

/// A line has 64 bytes at most, and a thousand million lines are read.
pub fn the_limits_of_a_text_are_these()
    ensures line { MAX_LINE ≡ 64 }
    ensures lines { MAX_LINES ≡ 1000000000 }
{}
