//! Intervals, as an interval file of version 1 has them. Read next: `tc_command/src/output.rt`.
ghost use Rattle.std.specs.Prelude.{◌≤◌, replicate, IfSome};
ghost use Rattle.std.specs.Option.{option_to_list};
ghost use Rattle.pcm_front.specs.Distance.{IsInterval};
ghost use Rattle.pcm_front.specs.Pace.{intervals_in};
ghost use Rattle.interval_file.specs.declared.header.FileVersion.{FileVersion};
ghost use Rattle.interval_file.specs.Grammar.{intervals_bytes};

use interval_file::four_bytes;
use pcm_front::Intervals;
use tc_command::Output;

/// Spells the intervals that some samples brought.
#[inline(always)]
pub(crate) fn spell<O: Output>(intervals: Intervals, out: &mut O)
    requires length { IsInterval intervals.length }
    requires rest { IfSome intervals.rest (λ rest. (1 ≤ rest) × (rest ≤ intervals.length)) }
    ensures { O.given out.old out.new (intervals_bytes FileVersion.One (intervals_in intervals)) }
{
    spell_whole(intervals.length, intervals.whole, out);
    spell_rest(intervals.rest, out);
    spell_whole(intervals.length, intervals.begun, out);
}

/// Spells `count` intervals of a length.
#[inline(always)]
fn spell_whole<O: Output>(length: u32, count: u64, out: &mut O)
    requires { IsInterval length }
    ensures { O.given out.old out.new (intervals_bytes FileVersion.One (replicate count length)) }
{
    'pieces: for _done in 0..count {
        out.gather(&four_bytes(length));
    }
}

/// Spells the rest of a distance, if one ended.
#[inline(always)]
fn spell_rest<O: Output>(rest: Option<u32>, out: &mut O)
    requires { IfSome rest (λ rest. IsInterval rest) }
    ensures { O.given out.old out.new (intervals_bytes FileVersion.One (option_to_list rest)) }
{
    if let Some(rest) = rest {
        out.gather(&four_bytes(rest));
    }
}
