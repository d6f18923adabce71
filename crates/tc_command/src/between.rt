//! The way between a source and a sink. Read next: `running`.
ghost use Rattle.std.specs.Prelude.{◌≡◌};
ghost use Rattle.tc_command.specs.Told.{Told, WorksAsTold};
ghost use Rattle.tc_command.specs.Worked.{IsWorked};

use crate::command::Command;
use crate::engine::Engine;
use crate::making::{Maker, give_all, give_text};
use crate::running::run;
use crate::stop::Stop;
use crate::way::Way;
use tc_io::{Sink, Source};

/// A source and a sink.
struct Between<'s, 'k, S, K> {
    source: &'s mut S,
    out: &'k mut K,
}

impl<'s, 'k, S, K> Between<'s, 'k, S, K> {
    /// The way between them.
    fn new(source: &'s mut S, out: &'k mut K) -> Between<'s, 'k, S, K>
        ensures source { (result.source.ghost_name ≡ source.entry.ghost_name) × (result.source.now ≡ source.old) }
        ensures out { (result.out.ghost_name ≡ out.entry.ghost_name) × (result.out.now ≡ out.old) }
    {
        Between { source, out }
    }
}

impl<S: Source, K: Sink> Way for Between<'_, '_, S, K> {
    ghost use Rattle.std.specs.Prelude.{◌≡◌};
    ghost use Rattle.tc_command.specs.Worked.{IsWorked};

    ghost worked = { λ meaning before after result. (after.source.ghost_name ≡ before.source.ghost_name)
        × (after.out.ghost_name ≡ before.out.ghost_name)
        × IsWorked meaning S.left S.ends S.faults K.written K.faults before.source.now after.source.now
        before.out.now after.out.now result };

    fn read<E: Engine>(&mut self, first: &[u8], engine: &mut E) -> Result<(), Stop> {
        run(first, engine, self.source, self.out)
    }

    fn make<M: Maker>(&mut self, maker: &mut M) -> Result<(), Stop> {
        give_all(maker, self.out)
    }

    fn write(&mut self, bytes: &[u8]) -> Result<(), Stop> {
        give_text(bytes, self.out)
    }
}

/// Works a command between a source and a sink, in fixed memory.
// Out of line, so that no command has the room of another one on the stack: that of a best path is 2.6 MB while it is
// made.
#[inline(never)]
pub fn work<C: Command, S: Source, K: Sink>(
    command: &C,
    source: &mut S,
    out: &mut K,
) -> Result<(), Stop>
    ensures { WorksAsTold (C.told command.now) S.left S.ends S.faults K.written K.faults source.old source.new
        out.old out.new result }
{
    C::is_lawful();
    command.keeps_its_promise();
    let mut between = Between::new(source, out);
    let ended = work_along(command, &mut between);
    let Between { source, out } = between;
    // Nothing happens here. The proof reads what they are from this use of them.
    let _ = &*source;
    let _ = &*out;
    ended
}

/// Works it along this way.
fn work_along<C: Command, S: Source, K: Sink>(
    command: &C,
    way: &mut Between<'_, '_, S, K>,
) -> Result<(), Stop>
    ensures source { way.new.source.ghost_name ≡ way.old.source.ghost_name }
    ensures out { way.new.out.ghost_name ≡ way.old.out.ghost_name }
    ensures worked { IsWorked (Told.meaning (C.told command.now)) S.left S.ends S.faults K.written K.faults
        way.old.source.now way.new.source.now way.old.out.now way.new.out.now result }
{
    command.work(way)
}
