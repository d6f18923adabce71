//! The functions of a slicer of sound that C calls. Read next: `label`.
ghost use Rattle.std.specs.Prelude.{◌≡◌, ◌≤◌, ◌<◌, [], length, take, drop, true, false};
ghost use Rattle.std.specs.Align.{type_align};
ghost use Rattle.std.specs.Mem.{type_size};
ghost use Rattle.sound_reader.specs.declared.slicer_settings.SlicerSettings.{SlicerSettings};
ghost use Rattle.sound_reader.specs.Slicer.{is_full, CanSlice, Gives, IsSettled, StandsFor};
ghost use Rattle.tc_c.specs.contracts.slicer_kept.KeptSlicer.{the_row};
ghost use Rattle.tc_c.specs.CSettings.{MeansSlicer};

use crate::slicer_handle::TcSlicer;
use crate::slicer_kept::KeptSlicer;
use crate::slicer_settings::TcSlicerSettings;
use crate::write::TcTaken;
use sound_reader::SoundSlicer;

/// How many bytes a slicer takes.
#[unsafe(no_mangle)]
pub extern "C" fn tc_slicer_bytes() -> usize
    ensures { result ≡ type_size the_row }
{
    std::mem::size_of::<KeptSlicer>()
}

/// On what boundary they begin.
#[unsafe(no_mangle)]
pub extern "C" fn tc_slicer_boundary() -> usize
    ensures { result ≡ type_align the_row }
{
    std::mem::align_of::<KeptSlicer>()
}

/// Begins anew with these settings, where they mean some, and tells whether they do.
#[unsafe(no_mangle)]
pub extern "C" fn tc_slicer_start_(handle: &mut TcSlicer, settings: &TcSlicerSettings) -> bool
    ensures means { result ≡ true → MeansSlicer settings.now handle.new.value.settings }
    ensures stands { result ≡ true → StandsFor handle.new.value [] [] }
    ensures ready { result ≡ true → IsSettled handle.new.value × (is_full handle.new.value ≡ false) }
    ensures only { (s : SlicerSettings) → CanSlice s → MeansSlicer settings.now s → result ≡ true }
    ensures refused { result ≡ false → handle.new.value ≡ handle.old.value }
    ensures place { handle.new.at ≡ handle.old.at }
{
    match settings.meaning() {
        Some(settings) => {
            handle.slicer().slicer = SoundSlicer::new(settings);
            true
        }
        None => false,
    }
}

/// Takes samples from the front, and writes the intervals that they bring, as long as there is room.
#[unsafe(no_mangle)]
pub extern "C" fn tc_slicer_write_s16_(
    handle: &mut TcSlicer,
    samples: &[i16],
    ticks: &mut [u32],
) -> TcTaken
    ensures used { result.used ≤ length samples.now }
    ensures made { result.made ≤ length ticks.old }
    ensures settings { handle.new.value.settings ≡ handle.old.value.settings }
    ensures goes { Gives handle.old.value handle.new.value (take result.used samples.now)
        (take result.made ticks.new) }
    ensures rest { drop result.made ticks.new ≡ drop result.made ticks.old }
    ensures settled { result.made < length ticks.old → IsSettled handle.new.value }
    ensures all { result.made < length ticks.old → is_full handle.new.value ≡ false
        → result.used ≡ length samples.now }
    ensures few { length ticks.old ≡ 0 → (result.used ≡ 0) × (result.made ≡ 0)
        × (handle.new.value ≡ handle.old.value) }
    ensures full { result.full ≡ is_full handle.new.value }
    ensures place { handle.new.at ≡ handle.old.at }
{
    slice(&mut handle.slicer().slicer, samples, ticks)
}

/// The same of the slicer itself.
fn slice(slicer: &mut SoundSlicer, samples: &[i16], ticks: &mut [u32]) -> TcTaken
    ensures used { result.used ≤ length samples.now }
    ensures made { result.made ≤ length ticks.old }
    ensures settings { slicer.new.settings ≡ slicer.old.settings }
    ensures goes { Gives slicer.old slicer.new (take result.used samples.now) (take result.made ticks.new) }
    ensures rest { drop result.made ticks.new ≡ drop result.made ticks.old }
    ensures settled { result.made < length ticks.old → IsSettled slicer.new }
    ensures all { result.made < length ticks.old → is_full slicer.new ≡ false → result.used ≡ length samples.now }
    ensures few { length ticks.old ≡ 0 → (result.used ≡ 0) × (result.made ≡ 0) × (slicer.new ≡ slicer.old) }
    ensures full { result.full ≡ is_full slicer.new }
{
    let (used, made) = slicer.write(samples, ticks);
    TcTaken {
        used,
        made,
        full: slicer.is_full(),
    }
}
