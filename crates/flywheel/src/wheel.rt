//! The flywheel. Read next: `frame`.
ghost use Rattle.std.specs.Prelude.{◌≡◌, ℕ, ◌+◌, ◌<◌, ◌≤◌, ◌^◌, Bool, true, false, List, [], ◌∷◌, ◌++◌, IfSome};
ghost use Rattle.flywheel.specs.declared.heard.HeardWord.{HeardWord};
ghost use Rattle.flywheel.specs.declared.frame.Frame.{Frame};
ghost use Rattle.flywheel.specs.declared.frame.Frame.TheVariants.{Gone};
ghost use Rattle.flywheel.specs.Frames.{frames, heard_as, invented_after, is_due, tick_after};
ghost use Rattle.flywheel.specs.Wheel.{frames_left, goes_on_with, has_frame_due, running, still, IsInRange, IsPast};
ghost use Rattle.flywheel.specs.StandsFor.{HasGivenAll, StandsFor, StandsAfterTick};

use crate::frame::Frame;
use crate::heard::HeardWord;
use std::marker::Model;

/// Bridges the gaps between the words that are heard, with at most `limit` invented frames in each.
#[derive(Drop)]
pub struct Flywheel {
    limit: u8,
    reference: Option<HeardWord>,
    invented: u32,
    /// The first tick at which a frame is due, so that most ticks need one comparison.
    due_from: u64,
}

/// Past each tick that may occur.
const NEVER: u64 = u64::MAX;

impl Model for Flywheel {
    ghost use Rattle.flywheel.specs.Wheel.{Wheel, wheel_of, KeepsTime};

    ghost Value = { Wheel };

    ghost view = { λ w. wheel_of w.limit w.reference w.invented };

    ghost invariant = { λ w. KeepsTime w.limit w.reference w.invented w.due_from };
}

impl Flywheel {
    /// A flywheel that has heard no word.
    pub fn new(limit: u8) -> Flywheel
        ensures value { result ≡ still limit }
        ensures stands { StandsFor result [] 0 [] }
    {
        Flywheel {
            limit,
            reference: None,
            invented: 0,
            due_from: NEVER,
        }
    }

    /// A flywheel that has invented `invented` frames since a word.
    fn since(limit: u8, word: HeardWord, invented: u32) -> Flywheel
        requires range { IsInRange word }
        requires within { invented ≤ limit }
        ensures { result ≡ running limit word invented }
    {
        Flywheel {
            limit,
            reference: Some(word),
            invented,
            due_from: word.due_tick(invented + 1),
        }
    }

    /// Whether a frame is due at the tick.
    pub fn due(&self, tick: u64) -> bool
        requires below { tick < 2 ^ 60 }
        requires not_before { IfSome self.now.reference (λ word. word.tick ≤ tick) }
        ensures value { result ≡ has_frame_due self.now tick }

        // If nothing is due, all frames of the words so far were given.
        ensures stands { (words : List HeardWord) (earlier : ℕ) (given : List Frame)
            → StandsFor self.now words earlier given → earlier ≤ tick
            → result ≡ false → HasGivenAll self.now words tick given }
    {
        self.due_from <= tick
    }

    /// The next frame that is due at the tick. Several may be due at one tick, so this is called until
    /// it gives none.
    pub fn passed(&mut self, tick: u64) -> Option<Frame>
        requires below { tick < 2 ^ 60 }
        requires not_before { IfSome self.old.reference (λ word. word.tick ≤ tick) }

        // None if nothing is due, and then nothing changes.
        ensures none { has_frame_due self.old tick ≡ false → (result ≡ None) × (self.new ≡ self.old) }

        // A frame that is due is invented within the limit, and else it is the end.
        ensures invented { IfSome self.old.reference (λ word. let step = self.old.invented + 1 in
            is_due word step tick ≡ true → step ≤ self.old.limit
            → (result ≡ Some (invented_after word step)) × (self.new ≡ running self.old.limit word step)) }
        ensures gone { IfSome self.old.reference (λ word. let step = self.old.invented + 1 in
            is_due word step tick ≡ true → self.old.limit < step
            → (result ≡ Some (Gone (tick_after word step))) × (self.new ≡ still self.old.limit)) }

        // Its tick is not past this one.
        ensures past { IfSome result (λ frame. IsPast frame tick) }

        // So a loop until none ends, and its calls may be made.
        ensures fewer { IfSome result (λ _. frames_left self.new < frames_left self.old) }
        ensures limit { self.new.limit ≡ self.old.limit }
        ensures not_before { IfSome self.new.reference (λ word. word.tick ≤ tick) }

        // What it means for the frames of the words so far.
        ensures stands { (words : List HeardWord) (earlier : ℕ) (given : List Frame)
            → StandsFor self.old words earlier given → earlier ≤ tick
            → StandsAfterTick self.new words tick given result }
    {
        if !self.due(tick) {
            return None;
        }
        let word = self.reference?;
        let step = self.invented + 1;
        if step <= u32::from(self.limit) {
            *self = Flywheel::since(self.limit, word, step);
            Some(Frame::Invented {
                label: word.label_after(step),
                direction: word.direction,
                step,
                tick: word.tick_after(step),
            })
        } else {
            *self = Flywheel::new(self.limit);
            Some(Frame::Gone {
                tick: word.tick_after(step),
            })
        }
    }

    /// Whether the word goes on from the reference and the frames invented since.
    fn goes_on_with(&self, word: &HeardWord) -> bool
        ensures { result ≡ goes_on_with self.now word.now }
    {
        match &self.reference {
            Some(before) => before.leads_to(self.invented + 1, word),
            None => false,
        }
    }

    /// Takes a word, at whose tick nothing is due any more.
    pub fn heard(&mut self, word: &HeardWord) -> Frame
        requires range { IsInRange word.now }
        requires not_before { IfSome self.old.reference (λ before. before.tick ≤ word.now.tick) }
        requires nothing_due { has_frame_due self.old word.now.tick ≡ false }

        ensures frame { result ≡ heard_as (goes_on_with self.old word.now) word.now }
        ensures reference { self.new ≡ running self.old.limit word.now 0 }
        ensures left { frames_left self.new ≤ 256 }

        // What it means for the frames of the words so far.
        ensures stands { (words : List HeardWord) (earlier : ℕ) (given : List Frame)
            → StandsFor self.old words earlier given → earlier ≤ word.now.tick
            → HasGivenAll self.new (words ++ word.now ∷ []) word.now.tick (given ++ result ∷ []) }
    {
        let joined = self.goes_on_with(word);
        *self = Flywheel::since(self.limit, *word, 0);
        Frame::Heard {
            label: word.label,
            direction: word.direction,
            joined,
            tick: word.tick,
        }
    }
}
