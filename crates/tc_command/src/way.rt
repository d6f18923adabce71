//! What a command is worked along: the way from a source to a sink, neither of which it sees. Read next: `running`,
//! and with what reads nothing `making`.
ghost use Rattle.std.specs.Prelude.{◌≡◌, ℕ, ◌≤◌, List, [], length, true, Result};
ghost use Rattle.tc_command.specs.declared.stop.Stop.{Stop};
ghost use Rattle.tc_command.specs.Meaning.{Meaning, writes};

use crate::engine::Engine;
use crate::making::Maker;
use crate::stop::Stop;

/// A way from a source to a sink.
pub trait Way {
    /// A command of this meaning was worked along it, from the first state to the second, and ended so.
    ghost worked: { Meaning → Self → Self → Result (Unit {0}) Stop → Type 0 };

    /// Works an engine along the input. The bytes are written before the first one of the input comes, as a header.
    fn read<E: Engine>(&mut self, first: &[u8], engine: &mut E) -> Result<(), Stop>
        requires fits { length first.now ≤ 4096 }
        requires going { E.is_going engine.old }
        requires new { E.stands engine.old [] first.now }
        requires reads { Meaning.reads (E.meaning (E.choice engine.old)) ≡ true }
        ensures { (choice : E.Choice) → E.choice engine.old ≡ choice
            → worked (E.meaning choice) self.old self.new result };

    /// Writes the whole output of a command that reads nothing, piece by piece. It pulls nothing.
    fn make<M: Maker>(&mut self, maker: &mut M) -> Result<(), Stop>
        ensures { (text : List ℕ) → M.rest maker.old ≡ text → worked (writes text) self.old self.new result };

    /// The same of an output that is there as a whole.
    fn write(&mut self, bytes: &[u8]) -> Result<(), Stop>
        ensures { (text : List ℕ) → bytes.now ≡ text → worked (writes text) self.old self.new result };
}
