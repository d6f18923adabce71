//! What every command is: a type, whose value is what its words chose. Read next: `way`.
ghost use Rattle.tc_command.specs.Told.{IsLawful, KeepsPromise, Told};

use crate::stop::Stop;
use crate::way::Way;

/// A command, with what its words chose.
pub trait Command {
    /// All that is claimed of it.
    ghost told: { Self → Told };

    /// Works it along a way.
    fn work<W: Way>(&self, way: &mut W) -> Result<(), Stop>
        ensures { W.worked (Told.meaning (told self.now)) way.old way.new result };

    /// What it writes of an input keeps its promise.
    fn keeps_its_promise(&self)
        ensures { KeepsPromise (told self.now) };

    /// What is claimed of it is lawful, whatever its words choose.
    fn is_lawful()
        ensures { (command : Self) → IsLawful (told command) };
}
