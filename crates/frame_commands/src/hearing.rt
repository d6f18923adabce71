//! What hears the words of a recording: a reading of them, whatever they are asked for. Read next:
//! `direction_reader/src/reading.rt`.
ghost use Rattle.std.specs.Prelude.{◌≡◌, ℕ, ◌^◌, ◌<◌, ◌≤◌, ◌+◌, List, [], ◌∷◌, ◌++◌, All, IsTrue, length};
ghost use Rattle.limits.specs.declared.recording.TheConstants.{MAX_INTERVAL, MAX_INTERVALS};
ghost use Rattle.biphase.specs.declared.profile.Profile.{Profile};
ghost use Rattle.direction_reader.specs.declared.event.Event.{Event};
ghost use Rattle.direction_reader.specs.Firm.{DoNotFall};
ghost use Rattle.flywheel.specs.Wheel.{IsInRange};
ghost use Rattle.tc_address.specs.declared.system.System.{System};
ghost use Rattle.tc_job.specs.declared.witness.Witness.{Witness};
ghost use Rattle.frame_commands.specs.Heard.{AreHeard, AreHeardYet};
ghost use Rattle.frame_commands.specs.Hearing.{BeginsHearing, Hearer, HearsOn, word_ticks};
ghost use Rattle.frame_commands.specs.OfFrames.{words_heard};

use crate::words::Words;
use biphase::Profile;
use direction_reader::Reading;
use limits::MAX_INTERVAL;
use tc_address::System;

/// What hears the words of a recording.
pub(crate) trait Hearing: Drop {
    /// What an interval brought.
    type Brought: Copy;

    /// Whether words need a witness.
    ghost witness: { Witness };

    /// What it is, in numbers.
    ghost hearer: { Self → Hearer };

    /// What was brought are these events.
    ghost tells: { Self → Self.Brought → List Event → Type 0 };

    /// What was brought is nothing.
    ghost nothing: { Self.Brought → Type 0 };

    /// This may be brought, of a tick or later.
    ghost may: { Self → Self.Brought → ℕ → Type 0 };

    /// Before the first interval of a recording of this system, whose cells keep this tolerance.
    fn start(system: System, profile: Profile) -> Self
        ensures { BeginsHearing (hearer result) system profile };

    /// Takes the next interval, of `x` ticks.
    fn step(&mut self, x: u32) -> Self::Brought
        requires least { 1 ≤ x }
        requires most { x ≤ MAX_INTERVAL }
        requires room { Hearer.count (hearer self.old) < MAX_INTERVALS }
        ensures next { HearsOn (hearer self.old) x (hearer self.new) }
        ensures later { Hearer.until (hearer self.old) ≤ Hearer.until (hearer self.new) }
        ensures within { Hearer.until (hearer self.new) ≤ Hearer.tick (hearer self.new) }
        ensures may { may self.new result (Hearer.until (hearer self.old)) }
        ensures stands { (intervals : List ℕ) (events own : List Event)
            → Hearer.stands (hearer self.old) intervals events → tells self.new result own
            → Hearer.stands (hearer self.new) (intervals ++ x ∷ []) (events ++ own) };

    /// Whether the interval brought nothing.
    fn is_nothing(brought: &Self::Brought) -> bool
        ensures none { IsTrue result → (reader : Self) → tells reader brought.now [] }
        ensures only { nothing brought.now → IsTrue result };

    /// The words of what the latest interval brought. Nearly every interval brings none, and those are not to pay
    /// for the room of an answer.
    fn words(&self, brought: Self::Brought, words: &mut Words)
        requires { (from : ℕ) × may self.now brought from }
        ensures told { (own : List Event) × tells self.now brought own × (words.new ≡ words_heard own) }
        ensures few { length words.new ≤ 2 }
        ensures range { All IsInRange words.new }
        ensures in_turn { (from : ℕ) → may self.now brought from
            → DoNotFall from (word_ticks words.new) (Hearer.until (hearer self.now)) };

    /// The words that are given at the end of the recording.
    fn last_words(&self) -> Words
        requires { Hearer.tick (hearer self.now) < 2 ^ 60 }
        ensures told { (own : List Event) × (result ≡ words_heard own)
            × ((intervals : List ℕ) (events : List Event) → Hearer.stands (hearer self.now) intervals events
            → AreHeard witness (Hearer.system (hearer self.now)) (Hearer.profile (hearer self.now)) intervals
            (events ++ own)) }
        ensures few { length result ≤ 2 }
        ensures range { All IsInRange result }
        ensures in_turn { DoNotFall (Hearer.until (hearer self.now)) (word_ticks result)
            (Hearer.tick (hearer self.now)) };

    /// Up to which tick all words are given.
    fn until(&self) -> u64
        ensures value { result ≡ Hearer.until (hearer self.now) }
        ensures below { result < 2 ^ 60 };

    /// The tick at which the next interval ends, if it has `x` ticks.
    fn tick_after(&self, x: u32) -> u64
        requires { x ≤ MAX_INTERVAL }
        ensures value { result ≡ Hearer.tick (hearer self.now) + x }
        ensures within { Hearer.until (hearer self.now) ≤ result }
        ensures below { result < 2 ^ 60 };

    /// How many intervals were taken.
    fn intervals(&self) -> u64
        ensures value { result ≡ Hearer.count (hearer self.now) }
        ensures most { result ≤ MAX_INTERVALS };

    /// Their sum in ticks.
    fn ticks(&self) -> u64
        ensures value { result ≡ Hearer.tick (hearer self.now) }
        ensures below { result < 2 ^ 60 };

    /// The events that it has given are those that are heard so far.
    fn what_is_told_is_heard()
        ensures { (reader : Self) (intervals : List ℕ) (events : List Event)
            → Hearer.stands (hearer reader) intervals events
            → AreHeardYet witness (Hearer.system (hearer reader)) (Hearer.profile (hearer reader)) intervals events
            (Hearer.until (hearer reader)) };
}

/// Takes the next interval, of `x` ticks, out of the way of those with which no frame is due.
#[cold]
#[inline(never)]
pub(crate) fn step_aside<R: Hearing>(reader: &mut R, x: u32) -> R::Brought
    requires least { 1 ≤ x }
    requires most { x ≤ MAX_INTERVAL }
    requires room { Hearer.count (R.hearer reader.old) < MAX_INTERVALS }
    ensures next { HearsOn (R.hearer reader.old) x (R.hearer reader.new) }
    ensures later { Hearer.until (R.hearer reader.old) ≤ Hearer.until (R.hearer reader.new) }
    ensures may { R.may reader.new result (Hearer.until (R.hearer reader.old)) }
    ensures stands { (intervals : List ℕ) (events own : List Event)
        → Hearer.stands (R.hearer reader.old) intervals events → R.tells reader.new result own
        → Hearer.stands (R.hearer reader.new) (intervals ++ x ∷ []) (events ++ own) }
{
    reader.step(x)
}

/// Each reading is heard: of what it tells, the words that are not alone.
impl<R: Reading> Hearing for R {
    ghost use Rattle.std.specs.Prelude.{◌≡◌, List};
    ghost use Rattle.direction_reader.specs.declared.firm_event.FirmEvent.{FirmEvent};
    ghost use Rattle.frame_commands.specs.Heard.{told_events};
    ghost use Rattle.frame_commands.specs.KeptHearing.{asked_as, hearer_of};

    type Brought = R::Brought;

    ghost witness = { asked_as R.witness };

    ghost hearer = { λ r. hearer_of (R.reading r) };

    ghost tells = { λ r brought own.
        (told : List FirmEvent) × R.tells r brought told × (own ≡ told_events told) };

    ghost nothing = { λ brought. R.nothing brought };

    ghost may = { λ r brought from. R.may r brought from };

    fn start(system: System, profile: Profile) -> R {
        <R as Reading>::start(system, profile)
    }

    #[inline(always)]
    fn step(&mut self, x: u32) -> R::Brought {
        Reading::step(self, x)
    }

    #[inline(always)]
    fn is_nothing(brought: &R::Brought) -> bool {
        <R as Reading>::is_nothing(brought)
    }

    #[cold]
    #[inline(never)]
    fn words(&self, brought: R::Brought, words: &mut Words) {
        let _below = Reading::ticks(self);
        *words = Words::told(Reading::told(self, brought));
    }

    fn last_words(&self) -> Words {
        Words::told(Reading::last(self))
    }

    #[inline(always)]
    fn until(&self) -> u64 {
        let _below = Reading::ticks(self);
        Reading::until(self)
    }

    #[inline(always)]
    fn tick_after(&self, x: u32) -> u64 {
        let _within = Reading::until(self);
        Reading::ticks(self) + u64::from(x)
    }

    fn intervals(&self) -> u64 {
        Reading::intervals(self)
    }

    fn ticks(&self) -> u64 {
        Reading::ticks(self)
    }

    fn what_is_told_is_heard() {
        <R as Reading>::what_it_has_told();
    }
}
