//! What follows from the definitions alone.
ghost use Rattle.std.specs.Prelude.{◌++◌, ℕ, List, sum};
ghost use Rattle.direction_reader.specs.declared.firm_event.FirmEvent.{FirmEvent};
ghost use Rattle.direction_reader.specs.FirmTold.{ComesFirst};
ghost use Rattle.tape_reader.specs.declared.reader.TapeReader.{TapeReader};
ghost use Rattle.tape_reader.specs.Tape.{settings_of, told_until, AreTapeEvents, AreTapeTold, StandsFor};

use direction_reader::reading_laws::what_is_told_comes_first;
use direction_reader::{ConsecutiveReader, CountedReader, DirectionReader, FirmReader, Reading};

/// What a reader has told is what its intervals tell while more may follow. If more follow, it comes first,
/// and all else ends at the tick up to which all was told, or later.
pub fn what_is_told_of_a_tape_comes_first()
    ensures told { (tape : TapeReader) (intervals : List ℕ) (told : List FirmEvent) → StandsFor tape intervals told
        → AreTapeTold (settings_of tape) intervals told (told_until tape) }
    ensures later { (tape : TapeReader) (intervals more : List ℕ) (told events : List FirmEvent)
        → StandsFor tape intervals told → AreTapeEvents (settings_of tape) (intervals ++ more) events
        → ComesFirst told (told_until tape) events (sum (intervals ++ more)) }
{
    DirectionReader::what_it_has_told();
    FirmReader::what_it_has_told();
    ConsecutiveReader::what_it_has_told();
    CountedReader::what_it_has_told();
    what_is_told_comes_first();
}
