//! The functions of a reader that C calls. Read next: `label`.
ghost use Rattle.std.specs.Prelude.{◌≡◌, ◌+◌, ◌≤◌, ◌<◌, ℤ, List, [], length, take, drop, true, false, sum};
ghost use Rattle.std.specs.Align.{type_align};
ghost use Rattle.std.specs.Mem.{type_size};
ghost use Rattle.direction_reader.specs.declared.event.Event.{Event};
ghost use Rattle.sound_reader.specs.declared.settings.SoundSettings.{SoundSettings};
ghost use Rattle.sound_reader.specs.Settings.{AreInRange};
ghost use Rattle.sound_reader.specs.Sound.{intervals_of, is_full, AllElseIsLater, IsSettled, StandsFor};
ghost use Rattle.tc_c.specs.contracts.kept.KeptReader.{the_row};
ghost use Rattle.tc_c.specs.CSettings.{Means};
ghost use Rattle.tc_c.specs.Write.{Goes};

use crate::event::TcEvent;
use crate::handle::TcReader;
use crate::kept::KeptReader;
use crate::settings::TcSettings;
use crate::write::{TcTaken, write};
use sound_reader::SoundReader;

/// The version of these functions: it grows where a form or a meaning changes.
pub const ABI: u32 = 1;

/// The version.
#[unsafe(no_mangle)]
pub extern "C" fn tc_abi() -> u32
    ensures { result ≡ 1 }
{
    ABI
}

/// How many bytes a reader takes.
#[unsafe(no_mangle)]
pub extern "C" fn tc_reader_bytes() -> usize
    ensures { result ≡ type_size the_row }
{
    std::mem::size_of::<KeptReader>()
}

/// On what boundary they begin.
#[unsafe(no_mangle)]
pub extern "C" fn tc_reader_boundary() -> usize
    ensures { result ≡ type_align the_row }
{
    std::mem::align_of::<KeptReader>()
}

/// Begins anew with these settings, where they mean some, and tells whether they do.
#[unsafe(no_mangle)]
pub extern "C" fn tc_reader_start_(handle: &mut TcReader, settings: &TcSettings) -> bool
    ensures means { result ≡ true → Means settings.now handle.new.value.settings }
    ensures stands { result ≡ true → StandsFor handle.new.value [] [] }
    ensures ready { result ≡ true → IsSettled handle.new.value × (is_full handle.new.value ≡ false) }
    ensures only { (s : SoundSettings) → AreInRange s → Means settings.now s → result ≡ true }
    ensures refused { result ≡ false → handle.new.value ≡ handle.old.value }
    ensures place { handle.new.at ≡ handle.old.at }
{
    match settings.meaning() {
        Some(settings) => {
            handle.reader().reader = SoundReader::new(settings);
            true
        }
        None => false,
    }
}

/// Takes samples from the front, and writes the events that they bring, as long as there is room for two.
#[unsafe(no_mangle)]
pub extern "C" fn tc_reader_write_s16_(
    handle: &mut TcReader,
    samples: &[i16],
    events: &mut [TcEvent],
) -> TcTaken
    ensures used { result.used ≤ length samples.now }
    ensures made { result.made ≤ length events.old }
    ensures settings { handle.new.value.settings ≡ handle.old.value.settings }
    ensures goes { Goes handle.old.value handle.new.value (take result.used samples.now)
        (take result.made events.new) }
    ensures rest { drop result.made events.new ≡ drop result.made events.old }
    ensures all { result.made + 2 ≤ length events.old → is_full handle.new.value ≡ false
        → (result.used ≡ length samples.now) × IsSettled handle.new.value }
    ensures few { length events.old < 2 → (result.used ≡ 0) × (result.made ≡ 0)
        × (handle.new.value ≡ handle.old.value) }
    ensures full { result.full ≡ is_full handle.new.value }
    ensures place { handle.new.at ≡ handle.old.at }
{
    write(&mut handle.reader().reader, samples, events)
}

/// Up to which tick all words are told: one that is told later ends there or behind it, whatever samples follow, and
/// so does all else that is told later.
#[unsafe(no_mangle)]
pub extern "C" fn tc_reader_told_(handle: &mut TcReader) -> u64
    ensures value { result ≡ handle.old.value.reader.tick }
    ensures later { AllElseIsLater handle.old.value result }
    ensures settled { (samples : List ℤ) (told : List Event) → StandsFor handle.old.value samples told
        → IsSettled handle.old.value → result ≡ sum (intervals_of handle.old.value.settings samples) }
    ensures same { handle.new ≡ handle.old }
{
    handle.reader().reader.told_until()
}
