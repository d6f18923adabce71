//! The functions of a flywheel that C calls. Read next: `label`.
ghost use Rattle.std.specs.Prelude.{◌≡◌, ◌≤◌, ◌<◌, ◌↔◌, [], ◌∷◌, length, take, drop, true, false};
ghost use Rattle.std.specs.Align.{type_align};
ghost use Rattle.std.specs.Mem.{type_size};
ghost use Rattle.flywheel.specs.declared.heard.HeardWord.{HeardWord};
ghost use Rattle.frame_wheel.specs.Wheel.{MayTell, StandsFor};
ghost use Rattle.tc_c.specs.contracts.wheel_kept.KeptWheel.{the_row};
ghost use Rattle.tc_c.specs.CFrame.{MeansHeard};
ghost use Rattle.tc_c.specs.Write.{WheelGoes};

use crate::frame::TcFrame;
use crate::given::{TcGiven, refused};
use crate::heard::TcHeard;
use crate::wheel_handle::TcWheel;
use crate::wheel_kept::KeptWheel;
use crate::wheel_write::{hear, pass};
use frame_wheel::FrameWheel;

/// How many bytes a flywheel takes.
#[unsafe(no_mangle)]
pub extern "C" fn tc_wheel_bytes() -> usize
    ensures { result ≡ type_size the_row }
{
    std::mem::size_of::<KeptWheel>()
}

/// On what boundary they begin.
#[unsafe(no_mangle)]
pub extern "C" fn tc_wheel_boundary() -> usize
    ensures { result ≡ type_align the_row }
{
    std::mem::align_of::<KeptWheel>()
}

/// Begins anew, with so many invented frames in a row at most, where that is a limit, and tells whether it is.
#[unsafe(no_mangle)]
pub extern "C" fn tc_wheel_start_(handle: &mut TcWheel, limit: u32) -> bool
    ensures limit { result ≡ true → handle.new.value.wheel.limit ≡ limit }
    ensures tick { result ≡ true → handle.new.value.tick ≡ 0 }
    ensures stands { result ≡ true → StandsFor handle.new.value [] [] }
    ensures only { (result ≡ true) ↔ (limit ≤ 255) }
    ensures refused { result ≡ false → handle.new.value ≡ handle.old.value }
    ensures place { handle.new.at ≡ handle.old.at }
{
    if limit > 255 {
        return false;
    }
    handle.wheel().wheel = FrameWheel::new(limit as u8);
    true
}

/// Writes the frames that are due at the tick, as long as there is room, where the tick may be told.
#[unsafe(no_mangle)]
pub extern "C" fn tc_wheel_pass_(handle: &mut TcWheel, tick: u64, frames: &mut [TcFrame]) -> TcGiven
    ensures made { result.made ≤ length frames.old }
    ensures limit { handle.new.value.wheel.limit ≡ handle.old.value.wheel.limit }
    ensures goes { WheelGoes handle.old.value handle.new.value [] result.done (take result.made frames.new) }
    ensures rest { drop result.made frames.new ≡ drop result.made frames.old }
    ensures refused { (result.refused ≡ false) ↔ MayTell handle.old.value tick }
    ensures same { result.refused ≡ true → (handle.new.value ≡ handle.old.value) × (result.made ≡ 0)
        × (result.done ≡ false) }
    ensures all { result.refused ≡ false → result.made < length frames.old → result.done ≡ true }
    ensures few { length frames.old ≡ 0 → (result.made ≡ 0) × (result.done ≡ false)
        × (handle.new.value ≡ handle.old.value) }
    ensures tick { result.done ≡ true → handle.new.value.tick ≡ tick }
    ensures told { result.refused ≡ false → 1 ≤ length frames.old → handle.new.value.tick ≡ tick }
    ensures place { handle.new.at ≡ handle.old.at }
{
    let kept = handle.wheel();
    if kept.wheel.may_tell(tick) {
        pass(&mut kept.wheel, tick, frames)
    } else {
        refused()
    }
}

/// Writes the frames that are due before a word, and then the word as a frame, as long as there is room, where the
/// numbers mean a word and its tick may be told.
#[unsafe(no_mangle)]
pub extern "C" fn tc_wheel_hear_(
    handle: &mut TcWheel,
    word: &TcHeard,
    frames: &mut [TcFrame],
) -> TcGiven
    ensures made { result.made ≤ length frames.old }
    ensures limit { handle.new.value.wheel.limit ≡ handle.old.value.wheel.limit }
    ensures heard { (w : HeardWord) → MeansHeard word.now w → result.done ≡ true
        → WheelGoes handle.old.value handle.new.value (w ∷ []) true (take result.made frames.new) }
    ensures before { result.done ≡ false
        → WheelGoes handle.old.value handle.new.value [] false (take result.made frames.new) }
    ensures rest { drop result.made frames.new ≡ drop result.made frames.old }
    ensures taken { (w : HeardWord) → MeansHeard word.now w → MayTell handle.old.value w.tick
        → result.refused ≡ false }
    ensures means { result.refused ≡ false → (w : HeardWord) × MeansHeard word.now w
        × MayTell handle.old.value w.tick }
    ensures same { result.refused ≡ true → (handle.new.value ≡ handle.old.value) × (result.made ≡ 0)
        × (result.done ≡ false) }
    ensures all { result.refused ≡ false → result.made < length frames.old → result.done ≡ true }
    ensures few { length frames.old ≡ 0 → (result.made ≡ 0) × (result.done ≡ false)
        × (handle.new.value ≡ handle.old.value) }
    ensures tick { result.done ≡ true → handle.new.value.tick ≡ word.now.tick }
    ensures told { result.refused ≡ false → 1 ≤ length frames.old → handle.new.value.tick ≡ word.now.tick }
    ensures place { handle.new.at ≡ handle.old.at }
{
    let Some(word) = word.meaning() else {
        return refused();
    };
    let kept = handle.wheel();
    if kept.wheel.may_tell(word.tick) {
        hear(&mut kept.wheel, &word, frames)
    } else {
        refused()
    }
}
