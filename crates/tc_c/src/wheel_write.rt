//! Ticks and words in, and frames out in numbers. Read next: `wheel_handle`.
ghost use Rattle.std.specs.Prelude.{◌≡◌, ◌≤◌, ◌<◌, [], ◌∷◌, length, take, drop, true, false};
ghost use Rattle.flywheel.specs.Wheel.{has_frame_due, IsInRange};
ghost use Rattle.frame_wheel.specs.Wheel.{MayTell};
ghost use Rattle.tc_c.specs.Write.{WheelGoes};

use crate::frame::{TcFrame, c_frame};
use crate::given::TcGiven;
use flywheel::HeardWord;
use frame_wheel::FrameWheel;

/// Writes the frames that are due at the tick, as long as there is room.
pub(crate) fn pass(wheel: &mut FrameWheel, tick: u64, frames: &mut [TcFrame]) -> TcGiven
    requires { MayTell wheel.old tick }
    ensures made { result.made ≤ length frames.old }
    ensures room { result.done ≡ true → result.made < length frames.old }
    ensures limit { wheel.new.wheel.limit ≡ wheel.old.wheel.limit }
    ensures goes { WheelGoes wheel.old wheel.new [] result.done (take result.made frames.new) }
    ensures rest { drop result.made frames.new ≡ drop result.made frames.old }
    ensures all { result.made < length frames.old → result.done ≡ true }
    ensures few { length frames.old ≡ 0 → (result.made ≡ 0) × (result.done ≡ false) × (wheel.new ≡ wheel.old) }
    ensures tick { result.done ≡ true → wheel.new.tick ≡ tick }
    ensures told { 1 ≤ length frames.old → wheel.new.tick ≡ tick }
    ensures idle { result.done ≡ true → has_frame_due wheel.new.wheel tick ≡ false }
    ensures taken { result.refused ≡ false }
{
    let mut made = 0;
    'passing: while made < frames.len() {
        match wheel.passed(tick) {
            Some(frame) => {
                frames[made] = c_frame(&frame);
                made += 1;
            }
            None => {
                return TcGiven {
                    made,
                    done: true,
                    refused: false,
                };
            }
        }
    }
    TcGiven {
        made,
        done: false,
        refused: false,
    }
}

/// Writes the frames that are due before a word, and then the word as a frame, as long as there is room.
pub(crate) fn hear(wheel: &mut FrameWheel, word: &HeardWord, frames: &mut [TcFrame]) -> TcGiven
    requires range { IsInRange word.now }
    requires later { MayTell wheel.old word.now.tick }
    ensures made { result.made ≤ length frames.old }
    ensures limit { wheel.new.wheel.limit ≡ wheel.old.wheel.limit }
    ensures heard { result.done ≡ true
        → WheelGoes wheel.old wheel.new (word.now ∷ []) true (take result.made frames.new) }
    ensures before { result.done ≡ false → WheelGoes wheel.old wheel.new [] false (take result.made frames.new) }
    ensures rest { drop result.made frames.new ≡ drop result.made frames.old }
    ensures all { result.made < length frames.old → result.done ≡ true }
    ensures few { length frames.old ≡ 0 → (result.made ≡ 0) × (result.done ≡ false) × (wheel.new ≡ wheel.old) }
    ensures tick { result.done ≡ true → wheel.new.tick ≡ word.now.tick }
    ensures told { 1 ≤ length frames.old → wheel.new.tick ≡ word.now.tick }
    ensures taken { result.refused ≡ false }
{
    let passed = pass(wheel, word.tick, frames);
    if !passed.done {
        return passed;
    }
    frames[passed.made] = c_frame(&wheel.heard(word));
    TcGiven {
        made: passed.made + 1,
        done: true,
        refused: false,
    }
}
