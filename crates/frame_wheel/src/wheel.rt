//! A flywheel and the latest tick. Read next: `flywheel/src/wheel.rt`.
ghost use Rattle.std.specs.Prelude.{◌≡◌, ◌<◌, ◌↔◌, IsTrue, IfSome, List, [], ◌∷◌, ◌++◌, None, false};
ghost use Rattle.flywheel.specs.declared.frame.Frame.{Frame};
ghost use Rattle.flywheel.specs.declared.heard.HeardWord.{HeardWord};
ghost use Rattle.flywheel.specs.Wheel.{frames_left, has_frame_due, IsInRange};
ghost use Rattle.frame_wheel.specs.Wheel.{HasGivenAll, MayTell, StandsAfter, StandsFor};

use flywheel::{Flywheel, Frame, HeardWord};
use std::marker::Model;

/// Ticks are below this one.
const END_OF_TIME: u64 = 1 << 60;

/// Bridges the gaps between the words that are heard, along ticks that do not fall.
#[derive(Drop)]
pub struct FrameWheel {
    wheel: Flywheel,
    /// The latest tick that was told.
    tick: u64,
}

impl Model for FrameWheel {
    ghost use Rattle.frame_wheel.specs.Wheel.{IsKept, WheelState};

    ghost Value = { WheelState };

    ghost view = { λ w. record { wheel = w.wheel; tick = w.tick } };

    ghost invariant = { λ w. IsKept (record { wheel = w.wheel; tick = w.tick }) };
}

impl FrameWheel {
    /// One that has heard no word, and invents so many frames in a row at most.
    pub fn new(limit: u8) -> FrameWheel
        ensures limit { result.wheel.limit ≡ limit }
        ensures tick { result.tick ≡ 0 }
        ensures stands { StandsFor result [] [] }
    {
        FrameWheel {
            wheel: Flywheel::new(limit),
            tick: 0,
        }
    }

    /// Tells whether this tick may come next: it is not before the latest one, and below 2 to the 60th.
    pub fn may_tell(&self, tick: u64) -> bool
        ensures { IsTrue result ↔ MayTell self.now tick }
    {
        self.tick <= tick && tick < END_OF_TIME
    }

    /// The next frame that is due at the tick. Several may be due at one tick, so this is called until it gives
    /// none.
    pub fn passed(&mut self, tick: u64) -> Option<Frame>
        requires { MayTell self.old tick }
        ensures tick { self.new.tick ≡ tick }
        ensures limit { self.new.wheel.limit ≡ self.old.wheel.limit }
        ensures fewer { IfSome result (λ _. frames_left self.new.wheel < frames_left self.old.wheel) }
        ensures none { result ≡ None → has_frame_due self.new.wheel tick ≡ false }
        ensures stands { (words : List HeardWord) (given : List Frame) → StandsFor self.old words given
            → StandsAfter self.new words given result }
    {
        self.tick = tick;
        self.wheel.passed(tick)
    }

    /// Takes a word, at whose tick nothing is due any more.
    pub fn heard(&mut self, word: &HeardWord) -> Frame
        requires range { IsInRange word.now }
        requires told { self.old.tick ≡ word.now.tick }
        requires nothing_due { has_frame_due self.old.wheel word.now.tick ≡ false }
        ensures tick { self.new.tick ≡ self.old.tick }
        ensures limit { self.new.wheel.limit ≡ self.old.wheel.limit }
        ensures stands { (words : List HeardWord) (given : List Frame) → StandsFor self.old words given
            → HasGivenAll self.new (words ++ word.now ∷ []) (given ++ result ∷ []) }
    {
        self.wheel.heard(word)
    }
}
