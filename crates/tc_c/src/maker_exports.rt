//! The functions of a maker of cells that C calls. Read next: `sound_kept`.
ghost use Rattle.std.specs.Prelude.{◌≡◌, ◌≤◌, ◌<◌, ◌*◌, ◌↔◌, length, take, drop, true, false};
ghost use Rattle.std.specs.Align.{type_align};
ghost use Rattle.std.specs.Mem.{type_size};
ghost use Rattle.biphase.specs.Shape.{shape_with, IsShape};
ghost use Rattle.code_maker.specs.Bits.{GoesOnBehind};
ghost use Rattle.direction_reader.specs.Played.{low_bits};
ghost use Rattle.tc_c.specs.contracts.maker_kept.KeptMaker.{the_row};
ghost use Rattle.tc_c.specs.CWord.{number_of_bits};

use crate::given::{TcGiven, refused};
use crate::maker_handle::TcMaker;
use crate::maker_kept::KeptMaker;
use crate::word::TcBits;
use biphase::Shaper;
use code_maker::put_bits;

/// The most bits of a call.
const MAX_BITS: u32 = 128;

/// How many bytes a maker of cells takes.
#[unsafe(no_mangle)]
pub extern "C" fn tc_maker_bytes() -> usize
    ensures { result ≡ type_size the_row }
{
    std::mem::size_of::<KeptMaker>()
}

/// On what boundary they begin.
#[unsafe(no_mangle)]
pub extern "C" fn tc_maker_boundary() -> usize
    ensures { result ≡ type_align the_row }
{
    std::mem::align_of::<KeptMaker>()
}

/// Begins anew, with cells of `from` ticks and then each by `step` nearer to `to`, where that is a shape, and tells
/// whether it is.
#[unsafe(no_mangle)]
pub extern "C" fn tc_maker_start_(handle: &mut TcMaker, from: u32, to: u32, step: u32) -> bool
    ensures shape { result ≡ true → handle.new.value ≡ shape_with from to step }
    ensures only { (result ≡ true) ↔ IsShape (shape_with from to step) }
    ensures refused { result ≡ false → handle.new.value ≡ handle.old.value }
    ensures place { handle.new.at ≡ handle.old.at }
{
    match Shaper::new(from, to, step) {
        Ok(shaper) => {
            handle.maker().shaper = shaper;
            true
        }
        Err(_) => false,
    }
}

/// Writes the intervals of the cells of so many bits, bit 0 first, where there is room for two a bit.
#[unsafe(no_mangle)]
pub extern "C" fn tc_maker_bits_(
    handle: &mut TcMaker,
    bits: &TcBits,
    count: u32,
    ticks: &mut [u32],
) -> TcGiven
    ensures made { result.made ≤ length ticks.old }
    ensures cells { result.done ≡ true → GoesOnBehind handle.old.value (low_bits count (number_of_bits bits.now))
        handle.new.value (take result.made ticks.new) }
    ensures refused { (result.refused ≡ true) ↔ (128 < count) }
    ensures done { count ≤ 128 → 2 * count ≤ length ticks.old → result.done ≡ true }
    ensures room { result.done ≡ true → 2 * count ≤ length ticks.old }
    ensures rest { drop result.made ticks.new ≡ drop result.made ticks.old }
    ensures same { result.done ≡ false → (handle.new.value ≡ handle.old.value) × (result.made ≡ 0) }
    ensures few { length ticks.old < 2 * count → (result.made ≡ 0) × (result.done ≡ false)
        × (handle.new.value ≡ handle.old.value) }
    ensures place { handle.new.at ≡ handle.old.at }
{
    if count > MAX_BITS {
        return refused();
    }
    if 2 * count as usize > ticks.len() {
        return TcGiven {
            made: 0,
            done: false,
            refused: false,
        };
    }
    let made = put_bits(&mut handle.maker().shaper, bits.number(), count, ticks);
    TcGiven {
        made,
        done: true,
        refused: false,
    }
}
