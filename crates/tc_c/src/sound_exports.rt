//! The functions of a maker of sound that C calls. Read next: `label`.
ghost use Rattle.std.specs.Prelude.{◌≡◌, ◌≤◌, ◌<◌, ◌↔◌, [], length, take, drop, true, false};
ghost use Rattle.std.specs.Align.{type_align};
ghost use Rattle.std.specs.Mem.{type_size};
ghost use Rattle.code_maker.specs.Sound.{StandsFor};
ghost use Rattle.tc_c.specs.contracts.sound_kept.KeptSound.{the_row};
ghost use Rattle.tc_c.specs.Write.{SoundMakes};

use crate::sound_handle::TcSound;
use crate::sound_kept::KeptSound;
use code_maker::{MAX_LEVEL, SoundMaker};

/// What a call took and gave.
#[repr(C)]
#[derive(Clone, Copy)]
pub struct TcSoundTaken {
    /// So many intervals were taken, from the front.
    pub used: usize,
    /// So many samples were written, from the front.
    pub made: usize,
}

/// How many bytes a maker of sound takes.
#[unsafe(no_mangle)]
pub extern "C" fn tc_sound_bytes() -> usize
    ensures { result ≡ type_size the_row }
{
    std::mem::size_of::<KeptSound>()
}

/// On what boundary they begin.
#[unsafe(no_mangle)]
pub extern "C" fn tc_sound_boundary() -> usize
    ensures { result ≡ type_align the_row }
{
    std::mem::align_of::<KeptSound>()
}

/// Begins anew, with this level, where it is one, and tells whether it is.
#[unsafe(no_mangle)]
pub extern "C" fn tc_sound_start_(handle: &mut TcSound, level: u32) -> bool
    ensures level { result ≡ true → handle.new.value.level ≡ level }
    ensures stands { result ≡ true → StandsFor handle.new.value [] [] }
    ensures only { (result ≡ true) ↔ (level ≤ 32767) }
    ensures refused { result ≡ false → handle.new.value ≡ handle.old.value }
    ensures place { handle.new.at ≡ handle.old.at }
{
    if level > u32::from(MAX_LEVEL) {
        return false;
    }
    handle.maker().sound = SoundMaker::new(level as u16);
    true
}

/// Takes intervals from the front, and writes their samples, as long as there is room.
#[unsafe(no_mangle)]
pub extern "C" fn tc_sound_write_(
    handle: &mut TcSound,
    ticks: &[u32],
    samples: &mut [i16],
) -> TcSoundTaken
    ensures used { result.used ≤ length ticks.now }
    ensures made { result.made ≤ length samples.old }
    ensures level { handle.new.value.level ≡ handle.old.value.level }
    ensures goes { SoundMakes handle.old.value handle.new.value (take result.used ticks.now)
        (take result.made samples.new) }
    ensures rest { drop result.made samples.new ≡ drop result.made samples.old }
    ensures all { result.made < length samples.old
        → (result.used ≡ length ticks.now) × (handle.new.value.rest ≡ 0) }
    ensures few { length samples.old ≡ 0 → (result.used ≡ 0) × (result.made ≡ 0)
        × (handle.new.value ≡ handle.old.value) }
    ensures place { handle.new.at ≡ handle.old.at }
{
    let (used, made) = handle.maker().sound.write(ticks, samples);
    TcSoundTaken { used, made }
}
