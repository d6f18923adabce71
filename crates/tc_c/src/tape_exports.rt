//! The functions of a reader of a tape that C calls. Read next: `label`.
ghost use Rattle.std.specs.Prelude.{◌≡◌, ◌+◌, ◌≤◌, ◌<◌, ◌++◌, ℕ, List, [], length, map, take, drop, true, false, sum};
ghost use Rattle.std.specs.Align.{type_align};
ghost use Rattle.std.specs.Mem.{type_size};
ghost use Rattle.direction_reader.specs.declared.firm_event.FirmEvent.{FirmEvent};
ghost use Rattle.tape_reader.specs.declared.settings.TapeSettings.{TapeSettings};
ghost use Rattle.direction_reader.specs.FirmTold.{ComesFirst};
ghost use Rattle.tape_reader.specs.Tape.{begins_with_none, is_full, settings_of, told_until, AreTapeEvents, StandsFor};
ghost use Rattle.tc_c.specs.contracts.tape_kept.KeptTape.{the_row};
ghost use Rattle.tc_c.specs.CEvent.{c_told};
ghost use Rattle.tc_c.specs.CSettings.{MeansTape};
ghost use Rattle.tc_c.specs.Write.{room_of, TapeGoes};

use crate::event::TcEvent;
use crate::tape_handle::TcTape;
use crate::tape_kept::KeptTape;
use crate::tape_settings::TcTapeSettings;
use crate::tape_write::{TcTapeTaken, put_all, room_for, write_tape};
use tape_reader::TapeReader;

/// How many bytes a reader of a tape takes.
#[unsafe(no_mangle)]
pub extern "C" fn tc_tape_bytes() -> usize
    ensures { result ≡ type_size the_row }
{
    std::mem::size_of::<KeptTape>()
}

/// On what boundary they begin.
#[unsafe(no_mangle)]
pub extern "C" fn tc_tape_boundary() -> usize
    ensures { result ≡ type_align the_row }
{
    std::mem::align_of::<KeptTape>()
}

/// Begins anew with these settings, where they mean some, and tells whether they do.
#[unsafe(no_mangle)]
pub extern "C" fn tc_tape_start_(handle: &mut TcTape, settings: &TcTapeSettings) -> bool
    ensures means { result ≡ true → MeansTape settings.now (settings_of handle.new.value) }
    ensures stands { result ≡ true → StandsFor handle.new.value [] [] }
    ensures ready { result ≡ true → is_full handle.new.value ≡ false }
    ensures only { (s : TapeSettings) → MeansTape settings.now s → result ≡ true }
    ensures refused { result ≡ false → handle.new.value ≡ handle.old.value }
    ensures place { handle.new.at ≡ handle.old.at }
{
    match settings.meaning() {
        Some(settings) => {
            handle.reader().tape = TapeReader::new(settings);
            true
        }
        None => false,
    }
}

/// Takes intervals from the front, and writes the events that they bring, as long as there is room for three, or
/// four of consecutive words.
#[unsafe(no_mangle)]
pub extern "C" fn tc_tape_write_(
    handle: &mut TcTape,
    intervals: &[u32],
    events: &mut [TcEvent],
) -> TcTapeTaken
    ensures used { result.used ≤ length intervals.now }
    ensures made { result.made ≤ length events.old }
    ensures settings { settings_of handle.new.value ≡ settings_of handle.old.value }
    ensures goes { TapeGoes handle.old.value handle.new.value (take result.used intervals.now)
        (take result.made events.new) }
    ensures rest { drop result.made events.new ≡ drop result.made events.old }
    ensures all { result.made + room_of handle.old.value ≤ length events.old → result.full ≡ false → result.refused ≡ false
        → result.used ≡ length intervals.now }
    ensures few { length events.old < room_of handle.old.value → (result.used ≡ 0) × (result.made ≡ 0)
        × (handle.new.value ≡ handle.old.value) }
    ensures full { result.full ≡ is_full handle.new.value }
    ensures refused { result.refused ≡ begins_with_none (drop result.used intervals.now) }
    ensures place { handle.new.at ≡ handle.old.at }
{
    write_tape(&mut handle.reader().tape, intervals, events)
}

/// Writes what is told at the end of the tape, where no interval follows, and gives how many events these are.
/// Nothing changes in the reader, which may go on. Room for fewer than three events, or four of consecutive
/// words, takes none.
#[unsafe(no_mangle)]
pub extern "C" fn tc_tape_last_(handle: &mut TcTape, events: &mut [TcEvent]) -> usize
    ensures made { result ≤ length events.old }
    ensures all { room_of handle.old.value ≤ length events.old → (own : List FirmEvent)
        × (take result events.new ≡ map c_told own)
        × ((intervals : List ℕ) (told : List FirmEvent) → StandsFor handle.old.value intervals told
        → AreTapeEvents (settings_of handle.old.value) intervals (told ++ own)) }
    ensures none { length events.old < room_of handle.old.value → result ≡ 0 }
    ensures rest { drop result events.new ≡ drop result events.old }
    ensures same { handle.new ≡ handle.old }
{
    let tape = &handle.reader().tape;
    if events.len() < room_for(tape.witness()) {
        return 0;
    }
    put_all(&tape.last(), events, 0)
}

/// Up to which tick all words are told: one that is told later ends there or behind it, and so does all else that
/// is told later.
#[unsafe(no_mangle)]
pub extern "C" fn tc_tape_told_(handle: &mut TcTape) -> u64
    ensures value { result ≡ told_until handle.old.value }
    ensures later { (intervals more : List ℕ) (told events : List FirmEvent)
        → StandsFor handle.old.value intervals told
        → AreTapeEvents (settings_of handle.old.value) (intervals ++ more) events
        → ComesFirst told result events (sum (intervals ++ more)) }
    ensures same { handle.new ≡ handle.old }
{
    handle.reader().tape.told_until()
}
